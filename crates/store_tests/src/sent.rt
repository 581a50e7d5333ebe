ghost use Rattle.std.specs.Prelude.{◌≡◌};

// Lanes send stores, makers, sealed files and readers from thread to thread: each type of the outside may be sent.
use dev_host::{HostMaker, HostReader, HostSealed, HostStore};
use dev_memory::{MemMaker, MemReader, MemSealed, MemStore};
use dev_traits::{FileMaker, SealedReader, Store};

/// A store with its maker, one sealed file and its reader, as a state has them.
pub struct Held<S, M, F, R> {
    pub store: S,
    pub maker: M,
    pub sealed: F,
    pub reader: R,
}

// What crosses threads.
fn sent<T: Send>(value: T) -> T
    ensures { result ≡ value }
{
    value
}

/// Sends a store and what comes of it.
pub fn held_sent<S, M, F, R>(held: Held<S, M, F, R>) -> Held<S, M, F, R>
where
    S: Store<Maker = M, Reader = R> + Send,
    M: FileMaker<Sealed = F> + Send,
    F: Drop + Send,
    R: SealedReader + Send,
    ensures { result ≡ held }
{
    sent(held)
}

/// Sends the store in memory and what comes of it.
pub fn memory_sent(
    held: Held<MemStore, MemMaker, MemSealed, MemReader>,
) -> Held<MemStore, MemMaker, MemSealed, MemReader>
    ensures { result ≡ held }
{
    held_sent(held)
}

/// Sends the store of the program's runtime and what comes of it.
pub fn host_sent(
    held: Held<
        HostStore<HostRuntime>,
        HostMaker<HostRuntime>,
        HostSealed<HostRuntime>,
        HostReader<HostRuntime>,
    >,
) -> Held<
    HostStore<HostRuntime>,
    HostMaker<HostRuntime>,
    HostSealed<HostRuntime>,
    HostReader<HostRuntime>,
>
    ensures { result ≡ held }
{
    held_sent(held)
}
