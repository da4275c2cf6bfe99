//! A session together with its program.
ghost use Rattle.std.specs.Prelude.{◌≡◌, IsSome, None, Option, Some, is_none, is_some};
ghost use Rattle.bhost.specs.Deeds.{Acts, ActsIfReady, Allows, allows, is_ready};
ghost use Rattle.bhost.specs.Hosts.{host_owns, session_coded, loaded_coded, LoadedValue, SessionValue};

use crate::acting::act_on;
use crate::desk::{Answer, Deed, Desk};
use crate::loaded::LoadedProgram;
use crate::place::Place;
use crate::runs::Runs;
use std::alloc::Global;
use std::marker::Model;
use std::{mem, ptr};

/// A program in memory, with its session if one was begun; or none.
///
/// The session reads the program, which stays where it is until the session is over. A host can't be dropped, so that no
/// block is forgotten: `forget` lets go of one without a program.
#[repr(C)]
pub struct Host {
    session: *mut u8,
    program: *mut u8,
    pub ghost run: { Option SessionValue } by { session_coded },
    pub ghost read: { Option LoadedValue } by { loaded_coded },
}

impl Model for Host {
    ghost also_owns = { λ h. host_owns h.session h.run h.program h.read };
}

impl Host {
    /// One without a program.
    pub fn none() -> Host
        ensures no_run { result.run ≡ None }
        ensures no_program { result.read ≡ None }
    {
        Host {
            session: ptr::null_mut(),
            program: ptr::null_mut(),
        }
    }

    // One with this program, and no session yet.
    pub(crate) fn tie(program: Place<LoadedProgram, Global>) -> Host
        requires { IsSome program.value }
        ensures no_run { result.run ≡ None }
        ensures program { result.read ≡ program.value }
    {
        let Place { at, alloc: _ } = program;
        Host {
            session: ptr::null_mut(),
            program: at as *mut u8,
        }
    }

    /// Does what is asked for on the desk, and puts the answer there.
    pub fn act(self, alloc: Global, desk: Desk) -> (Host, Desk)
        requires program { IsSome self.read }
        requires allowed { Allows desk.deed self.run }
        ensures program { result.0.read ≡ self.read }
        ensures acts { Acts desk.deed desk.bytes.items self.read self.run result.0.run result.1.bytes.items result.1.answer }
    {
        let Host { session, program } = self;
        let place = Place {
            at: session as *mut Runs,
            alloc,
        };
        let (place, desk) = act_on(place, unsafe { &*(program as *mut LoadedProgram) }, desk);
        let Place { at, alloc: _ } = place;
        let session = at as *mut u8;
        (Host { session, program }, desk)
    }

    // The same, and whether it lacks a program, and a run if it has one.
    fn lacking(self) -> (Host, bool, bool)
        ensures same { result.0 ≡ self }
        ensures program { result.1 ≡ is_none self.read }
        ensures run { IsSome self.read → result.2 ≡ is_none self.run }
    {
        let Host { session, program } = self;
        let lacks_program = program.is_null();
        let lacks_run = session.is_null();
        (Host { session, program }, lacks_program, lacks_run)
    }

    /// Whether it has a program, and a run or none, as is wanted where this is done.
    pub fn is_ready(&mut self, deed: &Deed) -> bool
        ensures same { self.new ≡ self.old }
        ensures ready { result ≡ is_ready deed.now self.old.read self.old.run }
    {
        let (host, lacks_program, lacks_run) = mem::replace(self, Host::none()).lacking();
        self.put(host);
        !lacks_program && allows(deed, lacks_run)
    }

    /// Whether it has a program.
    pub fn has_program(&mut self) -> bool
        ensures same { self.new ≡ self.old }
        ensures has { result ≡ is_some self.old.read }
    {
        let (host, lacks_program, _) = mem::replace(self, Host::none()).lacking();
        self.put(host);
        !lacks_program
    }

    // The program of one without a session.
    pub(crate) fn untie(self, alloc: Global) -> Place<LoadedProgram, Global>
        requires no_run { self.run ≡ None }
        requires program { IsSome self.read }
        ensures { result.value ≡ self.read }
    {
        let Host {
            session: _,
            program,
        } = self;
        let at = program as *mut LoadedProgram;
        Place { at, alloc }
    }

    /// Does this, with these bytes on the desk, and tells what came of it; or does nothing, since there is no program,
    /// or no run where one is wanted, or one where none is.
    pub fn ask(&mut self, alloc: Global, deed: Deed, bytes: Vec<u8>) -> Desk
        ensures program { self.new.read ≡ self.old.read }
        ensures acts { ActsIfReady deed bytes.items self.old.read self.old.run self.new.run result.bytes.items
            result.answer }
    {
        let is_ready = self.is_ready(&deed);
        let desk = Desk {
            alloc,
            deed,
            bytes,
            answer: Answer::Unready,
        };
        if !is_ready {
            return desk;
        }
        let host = mem::replace(self, Host::none());
        let (host, desk) = host.act(alloc, desk);
        self.put(host);
        desk
    }

    /// Puts another one in the place of one without a program.
    pub fn put(&mut self, host: Host)
        requires { self.old.read ≡ None }
        ensures { self.new ≡ host }
    {
        mem::replace(self, host).forget();
    }

    /// Lets go of one without a program.
    pub fn forget(self)
        requires { self.read ≡ None }
    {
        let Host {
            session: _,
            program: _,
        } = self;
    }

    /// One with this program, and no session yet.
    pub fn of(program: Box<LoadedProgram>) -> Host
        ensures no_run { result.run ≡ None }
        ensures program { result.read ≡ Some program.value }
    {
        Host::tie(Place::of(program))
    }

    /// The program of one without a session.
    pub fn into_program(self, alloc: Global) -> Box<LoadedProgram>
        requires no_run { self.run ≡ None }
        requires program { IsSome self.read }
    {
        self.untie(alloc).into_box()
    }
}

// Whether something is done where a run lacks, or where there is one.
fn allows(deed: &Deed, lacks_run: bool) -> bool
    ensures { result ≡ allows deed.now lacks_run }
{
    match deed {
        Deed::Begin => lacks_run,
        Deed::Name(_) | Deed::Tell(_) => true,
        _ => !lacks_run,
    }
}
