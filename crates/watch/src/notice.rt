// The token of an ended epoch. It is not `Drop`: it has to be reported or dropped.
use semantics::verdict::Refusal;

pub struct Notice {
    pub(crate) number: u64,
}

// A refused report hands its notice back.
pub struct Returned {
    pub notice: Notice,
    pub refusal: Refusal,
}
