//! What is told of the places of a function.
ghost use Rattle.std.specs.Prelude.{◌≡◌, ◌<◌, ◌≤◌, ◌++◌, ◌-◌, ◌∷◌, [], Some, false, fold, IfOk, OnOk, length, map};
ghost use Rattle.std.specs.Prelude.{slice_get, unwrap_or};
ghost use Rattle.bverify.specs.Depths.{AreClosed, AreReached, Depths, Fits, depth_at, operands_taken, way, ways};
ghost use Rattle.bverify.specs.Flaws.{can_be_stuck, comes_to_goto, flaws_of, is_depth, is_goto, label_flaws};
ghost use Rattle.bverify.specs.Flaws.{labels_from, left_flaws, place_flaws, placed, some_can_be_stuck, unreached_flaws};
ghost use Rattle.bverify.specs.Flaws.{with_instr_flaws, with_place_flaws, with_way_flaws};

use crate::search::{depths_of, operands_put, operands_taken};
use blang::{Function, Instr, MAX_INSTRUCTIONS};
use std::alloc::{AllocError, Global};

/// What is wrong at a place of a function, or idle.
#[derive(Clone, Copy, PartialEq, Eq)]
pub enum Flaw {
    /// The instruction takes more operands than there are.
    Lacks { depth: u16, taken: u32 },
    /// The instruction leads to a place with this many operands, where another way comes with another number.
    Differs { to: usize, depth: u32, other: u16 },
    /// The instruction leads to a place without an instruction.
    Leaves { to: usize },
    /// No way leads to this place.
    Unreached,
    /// So many operands are left when the call returns.
    Left(u16),
    /// A label leads to this place, and no way of the function leads to a goto.
    NoGoto(usize),
}

impl Flaw {
    /// Whether some run may lack an operand or an instruction.
    pub fn can_be_stuck(self) -> bool
        ensures { result ≡ can_be_stuck self }
    {
        matches!(
            self,
            Flaw::Lacks { .. } | Flaw::Differs { .. } | Flaw::Leaves { .. }
        )
    }
}

/// A flaw at a place of its function.
#[derive(Clone, Copy, PartialEq, Eq)]
pub struct PlacedFlaw {
    pub place: usize,
    pub flaw: Flaw,
}

/// A function that was checked: how many operands a call has at each place, and what is told of it.
#[derive(Drop)]
pub struct Verified {
    pub depths: Vec<Option<u16>>,
    pub flaws: Vec<PlacedFlaw>,
}

/// Checks a function. Where no flaw can be stuck, the depths fit; and where any depths fit, none can be stuck.
pub fn verify_function(alloc: Global, function: &Function) -> Result<Verified, AllocError>
    ensures told { IfOk result (λ v. v.flaws.items ≡ flaws_of function.now.targets function.now.code v.depths.items) }
    ensures begun { IfOk result (λ v. 1 ≤ length function.now.code → depth_at v.depths.items 0 ≡ Some 0) }
    ensures reached { IfOk result (λ v. AreReached function.now.targets function.now.code v.depths.items) }
    ensures closed { IfOk result (λ v. AreClosed function.now.targets function.now.code v.depths.items) }
    ensures fits { IfOk result (λ v. some_can_be_stuck v.flaws.items ≡ false
        → Fits function.now.targets function.now.code v.depths.items) }
    ensures never_idly { IfOk result (λ v. (depths : Depths) → Fits function.now.targets function.now.code depths
        → some_can_be_stuck v.flaws.items ≡ false) }
{
    let parts = function.parts();
    verify_code(alloc, &parts.targets, &parts.code)
}

fn verify_code(alloc: Global, targets: &[u16], code: &[Instr]) -> Result<Verified, AllocError>
    requires { length code.now ≤ MAX_INSTRUCTIONS }
    ensures told { IfOk result (λ v. v.flaws.items ≡ flaws_of targets.now code.now v.depths.items) }
    ensures begun { IfOk result (λ v. 1 ≤ length code.now → depth_at v.depths.items 0 ≡ Some 0) }
    ensures reached { IfOk result (λ v. AreReached targets.now code.now v.depths.items) }
    ensures closed { IfOk result (λ v. AreClosed targets.now code.now v.depths.items) }
    ensures fits { IfOk result (λ v. some_can_be_stuck v.flaws.items ≡ false
        → Fits targets.now code.now v.depths.items) }
    ensures never_idly { IfOk result (λ v. (depths : Depths) → Fits targets.now code.now depths
        → some_can_be_stuck v.flaws.items ≡ false) }
{
    let depths = depths_of(alloc, targets, code)?;
    let flaws = flaws_of(alloc, targets, code, &depths)?;
    Ok(Verified { depths, flaws })
}

fn flaws_of(
    alloc: Global,
    targets: &[u16],
    code: &[Instr],
    depths: &[Option<u16>],
) -> Result<Vec<PlacedFlaw>, AllocError>
    ensures { IfOk result (λ v. v.items ≡ flaws_of targets.now code.now depths.now) }
{
    let mut flaws = Vec::new(alloc);
    push_places(&mut flaws, targets, code, depths)?;
    push_labels(&mut flaws, targets, code, depths)?;
    Ok(flaws)
}

// The flaws of the instructions, where none was told yet.
fn push_places(
    flaws: &mut Vec<PlacedFlaw>,
    targets: &[u16],
    code: &[Instr],
    depths: &[Option<u16>],
) -> Result<(), AllocError>
    requires { flaws.now.items ≡ [] }
    ensures { OnOk result (flaws.new.items ≡ place_flaws targets.now code.now depths.now) }
{
    let start = Here {
        depths,
        targets,
        place: 0,
    };
    start.push_way(flaws, 0, 0)?;
    for (place, instr) in code.iter().enumerate() {
        let here = Here {
            depths,
            targets,
            place,
        };
        here.push_place(flaws, instr)?;
    }
    Ok(())
}

// The labels, if no goto can lead to them.
fn push_labels(
    flaws: &mut Vec<PlacedFlaw>,
    targets: &[u16],
    code: &[Instr],
    depths: &[Option<u16>],
) -> Result<(), AllocError>
    ensures { OnOk result (flaws.new.items ≡ flaws.old.items ++ label_flaws targets.now code.now depths.now) }
{
    if comes_to_goto(code, depths) {
        return Ok(());
    }
    push_each_label(flaws, targets)
}

fn push_each_label(flaws: &mut Vec<PlacedFlaw>, targets: &[u16]) -> Result<(), AllocError>
    ensures { OnOk result (flaws.new.items ≡ flaws.old.items ++ labels_from 0 targets.now) }
{
    for (label, target) in targets.iter().enumerate() {
        flaws.push(PlacedFlaw {
            place: usize::from(*target),
            flaw: Flaw::NoGoto(label),
        })?;
    }
    Ok(())
}

// Whether some way leads to a goto.
fn comes_to_goto(code: &[Instr], depths: &[Option<u16>]) -> bool
    ensures { result ≡ comes_to_goto code.now depths.now }
{
    code.iter()
        .zip(depths)
        .any(|(instr, depth)| is_goto(*instr) && depth.is_some())
}

fn is_goto(instr: Instr) -> bool
    ensures { result ≡ is_goto instr }
{
    matches!(instr, Instr::Goto)
}

// A place of a function.
#[derive(Clone, Copy)]
struct Here<'a> {
    depths: &'a [Option<u16>],
    targets: &'a [u16],
    place: usize,
}

impl Here<'_> {
    fn push_place(self, flaws: &mut Vec<PlacedFlaw>, instr: &Instr) -> Result<(), AllocError>
        requires { self.place < usize.MAX }
        ensures { OnOk result (flaws.new.items ≡ with_place_flaws self.entry.targets.now self.entry.depths.now instr.now
            self.entry.place (depth_at self.entry.depths.now self.entry.place) flaws.old.items) }
    {
        match self.depth_at(self.place) {
            Some(depth) => self.push_instr(flaws, instr, depth),
            None => self.push_unreached(flaws),
        }
    }

    fn depth_at(self, place: usize) -> Option<u16>
        ensures { result ≡ depth_at self.entry.depths.now place }
    {
        match self.depths.get(place) {
            Some(known) => *known,
            None => None,
        }
    }

    fn push_unreached(self, flaws: &mut Vec<PlacedFlaw>) -> Result<(), AllocError>
        ensures { OnOk result (flaws.new.items ≡ flaws.old.items ++ placed self.entry.place
            (unreached_flaws (depth_at self.entry.depths.now (self.entry.place - 1)))) }
    {
        match self.depth_at(self.place.saturating_sub(1)) {
            Some(_) => self.push(flaws, Flaw::Unreached),
            None => Ok(()),
        }
    }

    fn push_instr(
        self,
        flaws: &mut Vec<PlacedFlaw>,
        instr: &Instr,
        depth: u16,
    ) -> Result<(), AllocError>
        requires { self.place < usize.MAX }
        ensures { OnOk result (flaws.new.items ≡ with_instr_flaws self.entry.targets.now self.entry.depths.now instr.now
            self.entry.place depth flaws.old.items) }
    {
        let taken = operands_taken(*instr);
        if u32::from(depth) < taken {
            return self.push(flaws, Flaw::Lacks { depth, taken });
        }
        self.push_ways(flaws, instr, depth)?;
        self.push_left(flaws, instr, depth)
    }

    fn push_left(
        self,
        flaws: &mut Vec<PlacedFlaw>,
        instr: &Instr,
        depth: u16,
    ) -> Result<(), AllocError>
        ensures { OnOk result (flaws.new.items
            ≡ flaws.old.items ++ placed self.entry.place (left_flaws instr.now depth)) }
    {
        match instr {
            Instr::Return => {
                if depth > 1 {
                    self.push(flaws, Flaw::Left(depth - 1))
                } else {
                    Ok(())
                }
            }
            _ => Ok(()),
        }
    }

    // The ways of an instruction that has its operands.
    fn push_ways(
        self,
        flaws: &mut Vec<PlacedFlaw>,
        instr: &Instr,
        depth: u16,
    ) -> Result<(), AllocError>
        requires within { self.place < usize.MAX }
        requires has { operands_taken instr.now ≤ depth }
        ensures { OnOk result (flaws.new.items
            ≡ fold (with_way_flaws self.entry.depths.now self.entry.place) flaws.old.items
            (ways self.entry.targets.now instr.now self.entry.place depth)) }
    {
        let depth = u32::from(depth);
        let rest = depth - operands_taken(*instr);
        match instr {
            Instr::Jump(target) => self.push_way(flaws, usize::from(*target), depth),
            Instr::JumpIfZero(target) => {
                self.push_way(flaws, usize::from(*target), rest)?;
                self.push_way(flaws, self.place + 1, rest)
            }
            Instr::JumpIfCase { target, .. } => {
                self.push_way(flaws, usize::from(*target), rest)?;
                self.push_way(flaws, self.place + 1, depth)
            }
            Instr::Goto => self.push_targets(flaws, rest),
            Instr::Return => Ok(()),
            _ => self.push_way(flaws, self.place + 1, rest + operands_put(*instr)),
        }
    }

    fn push_targets(self, flaws: &mut Vec<PlacedFlaw>, depth: u32) -> Result<(), AllocError>
        ensures { OnOk result (flaws.new.items
            ≡ fold (with_way_flaws self.entry.depths.now self.entry.place) flaws.old.items
            (map (λ t. way t depth) self.entry.targets.now)) }
    {
        for target in self.targets {
            self.push_way(flaws, usize::from(*target), depth)?;
        }
        Ok(())
    }

    fn push_way(self, flaws: &mut Vec<PlacedFlaw>, to: usize, depth: u32) -> Result<(), AllocError>
        ensures { OnOk result (flaws.new.items ≡ with_way_flaws self.entry.depths.now self.entry.place flaws.old.items
            (way to depth)) }
    {
        let Some(known) = known_at(self.depths, to) else {
            return self.push(flaws, Flaw::Leaves { to });
        };
        if is_depth(known, depth) {
            return Ok(());
        }
        self.push(flaws, differing(known, to, depth))
    }

    fn push(self, flaws: &mut Vec<PlacedFlaw>, flaw: Flaw) -> Result<(), AllocError>
        ensures { OnOk result (flaws.new.items ≡ flaws.old.items ++ placed self.entry.place (flaw ∷ [])) }
    {
        flaws.push(PlacedFlaw {
            place: self.place,
            flaw,
        })?;
        Ok(())
    }
}

fn known_at(depths: &[Option<u16>], place: usize) -> Option<Option<u16>>
    ensures { result ≡ slice_get depths.now place }
{
    depths.get(place).copied()
}

// A way with this depth, to a place with another one.
fn differing(known: Option<u16>, to: usize, depth: u32) -> Flaw
    ensures { result ≡ Flaw.Differs to depth (unwrap_or known 0) }
{
    Flaw::Differs {
        to,
        depth,
        other: known.unwrap_or(0),
    }
}

fn is_depth(known: Option<u16>, depth: u32) -> bool
    ensures { result ≡ is_depth known depth }
{
    match known {
        Some(known) => u32::from(known) == depth,
        None => false,
    }
}
