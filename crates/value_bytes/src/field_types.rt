use crate::reads::{
    FieldReader, Unread, read_list, read_long_list, read_u8, read_u16, read_u32, read_u64,
};
use crate::texts::{read_flag, read_long_text, read_optional, read_short_text};
use pk_values::{Items, Octets};
use std::alloc::Global;
use std::marker::PhantomData;

/// Numbers in two bytes.
pub struct U16;

impl FieldReader for U16 {
    ghost use Rattle.value_bytes.specs.Fields.{u16 as the_field};
    ghost use Rattle.value_bytes.specs.Telling.{u16-tells};

    type Value = u16;

    ghost field = { the_field };

    fn read(_alloc: Global, bytes: &[u8]) -> Result<(u16, &[u8]), Unread> {
        read_u16(bytes)
    }

    ghost tells = { u16-tells };
}

/// Numbers in four bytes.
pub struct U32;

impl FieldReader for U32 {
    ghost use Rattle.value_bytes.specs.Fields.{u32 as the_field};
    ghost use Rattle.value_bytes.specs.Telling.{u32-tells};

    type Value = u32;

    ghost field = { the_field };

    fn read(_alloc: Global, bytes: &[u8]) -> Result<(u32, &[u8]), Unread> {
        read_u32(bytes)
    }

    ghost tells = { u32-tells };
}

/// Numbers in eight bytes.
pub struct U64;

impl FieldReader for U64 {
    ghost use Rattle.value_bytes.specs.Fields.{u64 as the_field};
    ghost use Rattle.value_bytes.specs.Telling.{u64-tells};

    type Value = u64;

    ghost field = { the_field };

    fn read(_alloc: Global, bytes: &[u8]) -> Result<(u64, &[u8]), Unread> {
        read_u64(bytes)
    }

    ghost tells = { u64-tells };
}

/// One field behind the other.
pub struct Both<F, G> {
    first: PhantomData<F>,
    second: PhantomData<G>,
}

impl<F: FieldReader, G: FieldReader> FieldReader for Both<F, G> {
    ghost use Rattle.value_bytes.specs.Fields.{both};
    ghost use Rattle.value_bytes.specs.Telling.{both-tells};

    type Value = (F::Value, G::Value);

    ghost field = { both F.field G.field };

    fn read(alloc: Global, bytes: &[u8]) -> Result<((F::Value, G::Value), &[u8]), Unread> {
        match F::read(alloc, bytes) {
            Ok((first, rest)) => match G::read(alloc, rest) {
                Ok((second, left)) => Ok(((first, second), left)),
                Err(fault) => Err(fault),
            },
            Err(fault) => Err(fault),
        }
    }

    ghost tells = { both-tells F.field G.field F.tells G.tells };
}

/// A list with its count in eight bytes.
pub struct LongList<F> {
    of: PhantomData<F>,
}

impl<F: FieldReader> FieldReader for LongList<F> {
    ghost use Rattle.value_bytes.specs.Fields.{counted, u64 as the_count};
    ghost use Rattle.value_bytes.specs.Telling.{counted-tells, u64-tells};

    type Value = Items<F::Value>;

    ghost field = { counted the_count F.field };

    fn read(alloc: Global, bytes: &[u8]) -> Result<(Items<F::Value>, &[u8]), Unread> {
        read_long_list::<F>(alloc, bytes)
    }

    ghost tells = { counted-tells the_count F.field u64-tells F.tells };
}

/// A list with its count in four bytes.
pub struct ShortList<F> {
    of: PhantomData<F>,
}

impl<F: FieldReader> FieldReader for ShortList<F> {
    ghost use Rattle.value_bytes.specs.Fields.{counted, u32 as the_count};
    ghost use Rattle.value_bytes.specs.Telling.{counted-tells, u32-tells};

    type Value = Items<F::Value>;

    ghost field = { counted the_count F.field };

    fn read(alloc: Global, bytes: &[u8]) -> Result<(Items<F::Value>, &[u8]), Unread> {
        read_list::<F>(alloc, bytes)
    }

    ghost tells = { counted-tells the_count F.field u32-tells F.tells };
}

/// What may be absent.
pub struct Optional<F> {
    of: PhantomData<F>,
}

impl<F: FieldReader> FieldReader for Optional<F> {
    ghost use Rattle.value_bytes.specs.Fields.{optional};
    ghost use Rattle.value_bytes.specs.Telling.{optional-tells};

    type Value = Option<F::Value>;

    ghost field = { optional F.field };

    fn read(alloc: Global, bytes: &[u8]) -> Result<(Option<F::Value>, &[u8]), Unread> {
        read_optional::<F>(alloc, bytes)
    }

    ghost tells = { optional-tells F.field F.tells };
}

/// Bytes.
pub struct U8;

impl FieldReader for U8 {
    ghost use Rattle.value_bytes.specs.Fields.{u8 as the_field};
    ghost use Rattle.value_bytes.specs.Telling.{u8-tells};

    type Value = u8;

    ghost field = { the_field };

    fn read(_alloc: Global, bytes: &[u8]) -> Result<(u8, &[u8]), Unread> {
        read_u8(bytes)
    }

    ghost tells = { u8-tells };
}

/// Truth values.
pub struct Flag;

impl FieldReader for Flag {
    ghost use Rattle.value_bytes.specs.Fields.{flag as the_field};
    ghost use Rattle.value_bytes.specs.Telling.{flag-tells};

    type Value = bool;

    ghost field = { the_field };

    fn read(_alloc: Global, bytes: &[u8]) -> Result<(bool, &[u8]), Unread> {
        read_flag(bytes)
    }

    ghost tells = { flag-tells };
}

/// A text with its length in a byte.
pub struct ShortText;

impl FieldReader for ShortText {
    ghost use Rattle.value_bytes.specs.Fields.{text, u8 as the_length};
    ghost use Rattle.value_bytes.specs.Telling.{text-tells, u8-tells};

    type Value = Octets;

    ghost field = { text the_length };

    fn read(alloc: Global, bytes: &[u8]) -> Result<(Octets, &[u8]), Unread> {
        read_short_text(alloc, bytes)
    }

    ghost tells = { text-tells the_length u8-tells };
}

/// A text with its length in eight bytes.
pub struct LongText;

impl FieldReader for LongText {
    ghost use Rattle.value_bytes.specs.Fields.{text, u64 as the_length};
    ghost use Rattle.value_bytes.specs.Telling.{text-tells, u64-tells};

    type Value = Octets;

    ghost field = { text the_length };

    fn read(alloc: Global, bytes: &[u8]) -> Result<(Octets, &[u8]), Unread> {
        read_long_text(alloc, bytes)
    }

    ghost tells = { text-tells the_length u64-tells };
}
