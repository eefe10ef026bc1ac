// The buffers that the calls are lent, and what they hold afterwards.

// the longest file of a small town, and one byte more
pub const FILE: usize = 112;

// what stands in a buffer of bytes, and in one of scores, before a call
pub const UNTOUCHED: u8 = 255;

pub const UNSCORED: u16 = 65535;

// Whether a buffer holds these values, and behind them what it held before the call, of which there are to be as many as the buffer has at least.
pub fn holds<T: PartialEq>(buffer: &[T], front: &[T], untouched: &[T]) -> bool {
    buffer.starts_with(front) && untouched.starts_with(&buffer[front.len()..])
}
