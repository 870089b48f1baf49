//! The bytes of a text in a buffer, of which those in use are the first.
ghost use Rattle.std.specs.Prelude.{◌≡◌, ◌+◌, ◌/◌, ◌≤◌, ◌++◌, length, take};
ghost use Rattle.journal.specs.Tails.{last_part};

// The last of the bytes in use, as many as there is room for, go to the front.
#[tactic(auto, using(crate::proofs::Parts::moved))]
fn move_last(buffer: &mut [u8], used: usize, room: usize)
    requires few { room ≤ used }
    requires within { used ≤ length buffer.old }
    ensures { take room buffer.new ≡ last_part room (take used buffer.old) }
{
    buffer.copy_within(used - room..used, 0);
}

// Where so many more bytes go: behind those in use, or, where they don't fit, behind the last of these at the front.
#[tactic(auto, using(crate::proofs::Parts::last_last, crate::proofs::Parts::first_bytes))]
fn make_room(buffer: &mut [u8], used: usize, more: usize) -> usize
    requires { more ≤ length buffer.old / 2 }
    ensures fits { result + more ≤ length buffer.new }
    ensures kept { last_part (length buffer.old / 2) (take result buffer.new) ≡ last_part (length buffer.old / 2) (take used buffer.old) }
{
    let used = used.min(buffer.len());
    if more <= buffer.len() - used {
        return used;
    }
    let room = buffer.len() / 2;
    move_last(buffer, used, room);
    room
}

// The bytes go behind those in use: how many are then in use.
fn put(buffer: &mut [u8], used: usize, bytes: &[u8]) -> usize
    requires { used + length bytes.now ≤ length buffer.old }
    ensures { take result buffer.new ≡ take used buffer.old ++ bytes.now }
{
    let end = used + bytes.len();
    buffer[used..end].copy_from_slice(bytes);
    end
}

// The last of some bytes, as many as there is room for.
#[tactic(auto, unfolding(crate::specs::Tails::last_part))]
pub(crate) fn last_of(bytes: &[u8], room: usize) -> &[u8]
    ensures { result.now ≡ last_part room bytes.now }
{
    &bytes[bytes.len().saturating_sub(room)..]
}

// The last of the bytes go behind those in use, as many as there is room for: how many are then in use.
#[tactic(auto, using(crate::proofs::Parts::last_joined, crate::proofs::Parts::last_last, crate::proofs::Parts::last_few))]
pub(crate) fn append(buffer: &mut [u8], used: usize, bytes: &[u8]) -> usize
    ensures { last_part (length buffer.old / 2) (take result buffer.new) ≡ last_part (length buffer.old / 2) (last_part (length buffer.old / 2) (take used buffer.old) ++ bytes.now) }
{
    let last = last_of(bytes, buffer.len() / 2);
    let used = make_room(buffer, used, last.len());
    put(buffer, used, last)
}
