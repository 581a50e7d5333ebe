use crate::field_types::{
    Both, Flag, LongList, LongText, Optional, ShortList, ShortText, U8, U16, U32, U64,
};
use crate::writes::{
    FieldWriter, put_flag, put_list, put_long_list, put_long_text, put_optional, put_short_text,
    put_u8, put_u16, put_u32, put_u64,
};
use pk_values::{Items, Octets};
use std::alloc::{AllocError, Global};

impl FieldWriter for U8 {
    ghost use Rattle.value_bytes.specs.Fields.{u8 as the_field};

    type Value = u8;

    ghost field = { the_field };

    fn put(_alloc: Global, out: &mut Vec<u8>, value: &u8) -> Result<(), AllocError> {
        put_u8(out, *value)
    }
}

impl FieldWriter for U16 {
    ghost use Rattle.value_bytes.specs.Fields.{u16 as the_field};

    type Value = u16;

    ghost field = { the_field };

    fn put(_alloc: Global, out: &mut Vec<u8>, value: &u16) -> Result<(), AllocError> {
        put_u16(out, *value)
    }
}

impl FieldWriter for U32 {
    ghost use Rattle.value_bytes.specs.Fields.{u32 as the_field};

    type Value = u32;

    ghost field = { the_field };

    fn put(_alloc: Global, out: &mut Vec<u8>, value: &u32) -> Result<(), AllocError> {
        put_u32(out, *value)
    }
}

impl FieldWriter for U64 {
    ghost use Rattle.value_bytes.specs.Fields.{u64 as the_field};

    type Value = u64;

    ghost field = { the_field };

    fn put(_alloc: Global, out: &mut Vec<u8>, value: &u64) -> Result<(), AllocError> {
        put_u64(out, *value)
    }
}

impl FieldWriter for Flag {
    ghost use Rattle.value_bytes.specs.Fields.{flag as the_field};

    type Value = bool;

    ghost field = { the_field };

    fn put(_alloc: Global, out: &mut Vec<u8>, value: &bool) -> Result<(), AllocError> {
        put_flag(out, *value)
    }
}

impl FieldWriter for ShortText {
    ghost use Rattle.value_bytes.specs.Fields.{text, u8 as the_length};

    type Value = Octets;

    ghost field = { text the_length };

    fn put(_alloc: Global, out: &mut Vec<u8>, value: &Octets) -> Result<(), AllocError> {
        put_short_text(out, value)
    }
}

impl FieldWriter for LongText {
    ghost use Rattle.value_bytes.specs.Fields.{text, u64 as the_length};

    type Value = Octets;

    ghost field = { text the_length };

    fn put(_alloc: Global, out: &mut Vec<u8>, value: &Octets) -> Result<(), AllocError> {
        put_long_text(out, value)
    }
}

impl<F: FieldWriter> FieldWriter for ShortList<F> {
    ghost use Rattle.value_bytes.specs.Fields.{counted, u32 as the_count};

    type Value = Items<F::Value>;

    ghost field = { counted the_count F.field };

    fn put(alloc: Global, out: &mut Vec<u8>, value: &Items<F::Value>) -> Result<(), AllocError> {
        put_list::<F>(alloc, out, value)
    }
}

impl<F: FieldWriter> FieldWriter for LongList<F> {
    ghost use Rattle.value_bytes.specs.Fields.{counted, u64 as the_count};

    type Value = Items<F::Value>;

    ghost field = { counted the_count F.field };

    fn put(alloc: Global, out: &mut Vec<u8>, value: &Items<F::Value>) -> Result<(), AllocError> {
        put_long_list::<F>(alloc, out, value)
    }
}

impl<F: FieldWriter> FieldWriter for Optional<F> {
    ghost use Rattle.value_bytes.specs.Fields.{optional};

    type Value = Option<F::Value>;

    ghost field = { optional F.field };

    fn put(alloc: Global, out: &mut Vec<u8>, value: &Option<F::Value>) -> Result<(), AllocError> {
        put_optional::<F>(alloc, out, value)
    }
}

impl<F: FieldWriter, G: FieldWriter> FieldWriter for Both<F, G> {
    ghost use Rattle.value_bytes.specs.Fields.{both};

    type Value = (F::Value, G::Value);

    ghost field = { both F.field G.field };

    fn put(
        alloc: Global,
        out: &mut Vec<u8>,
        value: &(F::Value, G::Value),
    ) -> Result<(), AllocError> {
        F::put(alloc, out, &value.0)?;
        G::put(alloc, out, &value.1)
    }
}
