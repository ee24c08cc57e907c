//! Members that a copy shares.
use crate::kind::Kind;
use crate::space::Cells;
use mx_members::share::Share;
use std::alloc::{AllocError, Global};

impl Share for Kind {
    fn share(&self, _alloc: Global) -> Result<Kind, AllocError> {
        Ok(*self)
    }
}

impl Share for Cells {
    fn share(&self, _alloc: Global) -> Result<Cells, AllocError> {
        Ok(Cells {
            formula: self.formula.copy()?,
            allow_none: self.allow_none,
        })
    }
}
