// What an operation does.
use ordering::class::Mask;

mod does;
mod from;

// The class of an operation. A rule orders operations by classes of its own, `ordering::class::Class`:
// an operation that both reads and writes would be one class more here, and none there.
#[derive(Clone, Copy, PartialEq, Eq, Debug, Default)]
pub enum OpClass {
    #[default]
    Load,
    Store,
    Barrier(Mask),
}
