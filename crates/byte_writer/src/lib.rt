// Bytes that are laid over a lent buffer from an index on: what the writers of files and of texts share.
#![tactic(auto)]

ghost use Rattle.std.specs.Prelude.{◌+◌, ◌≤◌, length};
ghost use Rattle.counting.specs.Buffers.{Written};

// kept: a buffer and an index, since what a struct with a `&mut` leaves in the caller's buffer would need a clause on loans at each function.
// The bytes of a list: sites, a byte each, or a text.
pub fn write_list(list: &[u8], out: &mut [u8], i: usize) -> usize
    requires { i + length list.now ≤ length out.old }
    ensures { Written out.old i list.now out.new result }
{
    // kept: byte by byte, since `copy_from_slice` into a part of a lent buffer needs memmove, which a program in C may not have
    let mut next = i;
    for byte in list {
        out[next] = *byte;
        next += 1;
    }
    next
}
