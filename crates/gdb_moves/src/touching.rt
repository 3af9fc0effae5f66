//! The bytes of memory that a choice accesses.
ghost use Rattle.std.specs.Prelude.{◌≡◌, ◌%◌};
ghost use Rattle.hart_reservations.specs.Marks.{word_of};
ghost use Rattle.gdb_moves.specs.Touches.{shown_word, word_shown};

use debug_session::byte_at;
use hart_step::Access;
use mem_store::Store;

// The bytes of an aligned word.
fn shown_word<S: Store>(store: &S, word: u32) -> [u8; 4]
    requires { word % 4 ≡ 0 }
    ensures { result ≡ shown_word (S.memory store.now) word }
{
    [
        byte_at(store, word),
        byte_at(store, word + 1),
        byte_at(store, word + 2),
        byte_at(store, word + 3),
    ]
}

/// The bytes of the word that an access is in; zeros if there is none.
pub fn word_shown<S: Store>(store: &S, access: Option<Access>) -> [u8; 4]
    ensures { result ≡ word_shown (S.memory store.now) access }
{
    match access {
        Some(access) => shown_word(store, access.address - access.address % 4),
        None => [0; 4],
    }
}
