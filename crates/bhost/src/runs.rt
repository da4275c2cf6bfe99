//! A run of a program with its copies.
ghost use Rattle.std.specs.Prelude.{◌≡◌, [], slice_get};
ghost use Rattle.bhost.specs.Runs.{IsCopied, copy_told, swapped, without};

use crate::desk::Answer;
use bsession::Session;
use std::alloc::Global;
use std::marker::Model;
use std::mem;

/// A run, and the copies that are kept of it, in the order in which they were made.
#[derive(Drop)]
pub struct Runs<'a> {
    pub(crate) session: Session<'a>,
    kept: Vec<Session<'a>>,
}

impl<'a> Model for Runs<'a> {
    ghost use Rattle.bhost.specs.Runs.{RunsView};

    ghost Value = { RunsView };

    ghost view = { λ r. record { run = r.session; kept = r.kept.items } };
}

impl<'a> Runs<'a> {
    /// A run of which no copy is kept.
    pub(crate) fn of(alloc: Global, session: Session<'a>) -> Runs<'a>
        ensures { result ≡ record { run = session.entry; kept = [] } }
    {
        Runs {
            session,
            kept: Vec::new(alloc),
        }
    }

    /// Keeps a copy of the run.
    pub(crate) fn copy(&mut self, alloc: Global) -> Answer
        ensures { IsCopied self.old self.new result }
    {
        let Ok(copy) = self.session.copied(alloc) else {
            return Answer::Refused;
        };
        match self.kept.push(copy) {
            Ok(()) => Answer::Done,
            Err(_) => Answer::Refused,
        }
    }

    /// Goes on with a copy, and keeps the run in its place.
    pub(crate) fn swap(&mut self, number: usize) -> Answer
        ensures swapped { self.new ≡ swapped self.old number (slice_get self.old.kept number) }
        ensures told { result ≡ copy_told (slice_get self.old.kept number) }
    {
        if number >= self.kept.len() {
            return Answer::Missing;
        }
        mem::swap(&mut self.session, &mut self.kept[number]);
        Answer::Done
    }

    /// Lets go of a copy.
    pub(crate) fn forget(&mut self, number: usize) -> Answer
        ensures without { self.new ≡ without self.old number (slice_get self.old.kept number) }
        ensures told { result ≡ copy_told (slice_get self.old.kept number) }
    {
        if number >= self.kept.len() {
            return Answer::Missing;
        }
        drop(self.kept.remove(number));
        Answer::Done
    }
}
