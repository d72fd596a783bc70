// What an epoch lets its thread do with its place.
mod number;

// The kind of an epoch: to read, or to read and write.
#[derive(Clone, Copy, PartialEq, Eq, Debug)]
pub enum EpochKind {
    Read,
    Write,
}
