//! What is said of the tokens of a definition.
use crate::warnings::Warning;
use bmatch::Branch;
use std::alloc::{AllocError, Global};

/// What is said of a token.
#[derive(Clone, Copy)]
pub(crate) struct Remark {
    pub token: usize,
    pub warning: Warning,
    /// Another token, of which it speaks.
    pub other: Option<usize>,
}

impl Remark {
    /// What is said of a token alone.
    pub(crate) fn new(token: usize, warning: Warning) -> Option<Self> {
        Some(Remark {
            token,
            warning,
            other: None,
        })
    }

    /// What is said of a token and of another one.
    pub(crate) fn beside(token: usize, warning: Warning, other: usize) -> Option<Self> {
        Some(Remark {
            token,
            warning,
            other: Some(other),
        })
    }
}

/// What is said of each token of a definition, if anything is.
#[derive(Drop)]
pub(crate) struct Remarks {
    first: usize,
    pub all: Vec<Option<Remark>>,
}

impl Remarks {
    /// Nothing is said of the tokens of a definition.
    pub(crate) fn new(alloc: Global, definition: &Branch) -> Result<Self, AllocError> {
        let mut all = Vec::new(alloc);
        for _ in definition.first..=definition.last {
            all.push(None)?;
        }
        Ok(Remarks {
            first: definition.first,
            all,
        })
    }

    /// Says something. Of each token the first is kept.
    pub(crate) fn say(&mut self, remark: Option<Remark>) {
        if let Some(remark) = remark {
            if let Some(kept) = self.all.get_mut(remark.token.wrapping_sub(self.first)) {
                *kept = kept.or(Some(remark));
            }
        }
    }
}
