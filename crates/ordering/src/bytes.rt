// An ordering rule that is written as a table of bytes.
pub mod orders;

// A table lent by its owner, with a byte for each pair of classes.
#[derive(Clone, Copy)]
pub struct ByteTable<'a> {
    pub bytes: &'a [u8],
}
