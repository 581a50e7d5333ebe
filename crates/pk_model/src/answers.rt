ghost use Rattle.std.specs.Prelude.{◌≡◌, ◌<◌, ◌^◌};
ghost use Rattle.pk_model.specs.Books.{answer, answer_open, answer_stat, version};

use crate::books::Book;
use crate::calls::{Call, Reply, Want};

// What an open book answers to an opening.
pub fn open(book: &Book, want: Want) -> Reply
    requires { version book.now < 2 ^ 62 }
    ensures { result ≡ answer_open book.now want }
{
    let current = book.version();
    match want {
        Want::Latest => Reply::Opened(current),
        Want::At(version) => {
            if version < book.floor {
                Reply::Expired(book.floor)
            } else if current < version {
                Reply::NotYet(current)
            } else {
                Reply::Opened(version)
            }
        }
    }
}

// The counts of an open book.
pub fn stat(book: &Book) -> Reply
    requires { version book.now < 2 ^ 62 }
    ensures { result ≡ answer_stat book.now }
{
    Reply::Stat {
        floor: book.floor,
        version: book.version(),
        rows: book.current.len() as u64,
        rowsets: book.rowsets,
    }
}

impl Book {
    /// The answer to an opening. No call of a book that only answers wants memory.
    pub fn open(&self, want: Want) -> Reply
        requires { version self.now < 2 ^ 62 }
        ensures { result ≡ answer self.now (Call.Open want) }
    {
        match self.closed {
            Some(place) => Reply::Closed(place),
            None => open(self, want),
        }
    }

    /// The counts.
    pub fn stat(&self) -> Reply
        requires { version self.now < 2 ^ 62 }
        ensures { result ≡ answer self.now Call.Stat }
    {
        match self.closed {
            Some(place) => Reply::Closed(place),
            None => stat(self),
        }
    }
}
