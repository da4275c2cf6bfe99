//! What is known of all that is done with a session.
ghost use Rattle.bsession.specs.SessionRuns.{OneRun, TwoAreOne};

/// The slices of a session are one run: whatever is fed, taken and stored between them, it is where the machine is after
/// as many steps as all of them made, on the input that was fed and whatever comes after it, with each word from the
/// step on before which it was stored. All of the machine's output was taken or is there.
pub fn slices_are_one_run()
    ensures { OneRun }
{}

/// Where all steps of two slices were made, one slice of as many leaves the same.
pub fn two_slices_are_one()
    ensures { TwoAreOne }
{}
