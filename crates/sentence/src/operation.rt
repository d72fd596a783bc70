// Operations and epochs by name.
use explain::parts::{Epoch, Operation};
use ordering::class::{Class, Mask};
use semantics::kind::EpochKind;
use std::fmt;

// A mask that is to be named.
#[derive(Clone, Copy)]
struct NamedMask(Mask);

// An operation that is to be named.
#[derive(Clone, Copy)]
pub struct NamedOperation(pub Operation);

// An epoch that is to be named.
#[derive(Clone, Copy)]
pub struct NamedEpoch(pub Epoch);

// Writes the pairs of a mask, parted by commas.
impl fmt::Display for NamedMask {
    fn fmt<W: fmt::Write>(&self, f: &mut fmt::Formatter<W>) -> fmt::Result {
        let Mask {
            load_load,
            store_load,
            load_store,
            store_store,
        } = self.0;
        let pairs = [
            (load_load, "load-load"),
            (store_load, "store-load"),
            (load_store, "load-store"),
            (store_store, "store-store"),
        ];
        let mut comma = "";
        for (ordered, pair) in pairs {
            if ordered {
                write!(f, "{comma}{pair}")?;
                comma = ", ";
            }
        }
        Ok(())
    }
}

// Writes an operation by its class, its number and its place.
impl fmt::Display for NamedOperation {
    fn fmt<W: fmt::Write>(&self, f: &mut fmt::Formatter<W>) -> fmt::Result {
        let Operation { number, commit } = self.0;
        let Some(commit) = commit else {
            return write!(f, "operation number {number}");
        };
        let place = commit.place;
        match commit.class {
            Class::Load => write!(f, "load number {number} of place {place}"),
            Class::Store => write!(f, "store number {number} to place {place}"),
            Class::Barrier(mask) => write!(f, "barrier ({}) number {number}", NamedMask(mask)),
        }
    }
}

// Writes an epoch by its kind, its place, its notice and its lines.
impl fmt::Display for NamedEpoch {
    fn fmt<W: fmt::Write>(&self, f: &mut fmt::Formatter<W>) -> fmt::Result {
        let Epoch { notice, begin, end } = self.0;
        let Some(end) = end else {
            return write!(f, "epoch of notice {notice}");
        };
        let place = end.place;
        let last = end.line;
        let Some(begin) = begin else {
            return write!(
                f,
                "epoch on place {place} (notice {notice}, ended on line {last})"
            );
        };
        let first = begin.line;
        // The begin of an epoch that ended was taken, so its kind is 0 or 1.
        let kind = match EpochKind::try_from(begin.kind) {
            Ok(EpochKind::Read) => "read",
            _ => "write",
        };
        write!(
            f,
            "{kind} epoch on place {place} (notice {notice}, lines {first} to {last})"
        )
    }
}
