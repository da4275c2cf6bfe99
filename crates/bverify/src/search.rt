//! How many operands a call has at each place of its function.
ghost use Rattle.std.specs.Prelude.{◌≡◌, ◌+◌, ◌<◌, ◌≤◌, None, Some, [], fold, map, replicate, IfOk, OnOk, length};
ghost use Rattle.bverify.specs.Depths.{AreClosed, AreReached, depth_at, operands_put, operands_taken, way};
ghost use Rattle.bverify.specs.Search.{followed, found_by, looked_at, with_way};

use blang::{Instr, MAX_INSTRUCTIONS};
use std::alloc::{AllocError, Global};

/// The greatest number of operands that is told; no function has so many instructions.
const MOST_OPERANDS: u32 = 65535;

/// For each place of a function, how many operands a call has there by the first way that was found, or nothing where
/// no way leads. An instruction that lacks operands leads nowhere.
pub fn depths_of(
    alloc: Global,
    targets: &[u16],
    code: &[Instr],
) -> Result<Vec<Option<u16>>, AllocError>
    requires { length code.now ≤ MAX_INSTRUCTIONS }
    ensures all { IfOk result (λ v. length v.items ≡ length code.now) }
    ensures begun { IfOk result (λ v. 1 ≤ length code.now → depth_at v.items 0 ≡ Some 0) }
    ensures reached { IfOk result (λ v. AreReached targets.now code.now v.items) }
    ensures closed { IfOk result (λ v. AreClosed targets.now code.now v.items) }
{
    let mut search = Search::begin(alloc, code.len())?;
    while let Some(place) = search.pending.pop() {
        search.look_at(targets, code, place)?;
    }
    Ok(search.depths)
}

/// The depths so far, and the places from which no way was followed yet.
#[derive(Drop)]
struct Search {
    depths: Vec<Option<u16>>,
    pending: Vec<usize>,
}

impl Search {
    // A call begins at the first place, if there is one.
    fn begin(alloc: Global, places: usize) -> Result<Self, AllocError>
        ensures { IfOk result (λ s. found_by s
            ≡ with_way (record { depths = replicate places None; pending = [] }) (way 0 0)) }
    {
        let mut search = Search {
            depths: vec![in alloc; None; places]?,
            pending: Vec::new(alloc),
        };
        search.come_to(0, 0)?;
        Ok(search)
    }

    // Follows the ways from a place that has a depth.
    fn look_at(&mut self, targets: &[u16], code: &[Instr], place: usize) -> Result<(), AllocError>
        requires { length code.now ≤ MAX_INSTRUCTIONS }
        ensures { OnOk result (found_by self.new ≡ looked_at targets.now code.now place (found_by self.old)) }
    {
        let Some(instr) = code.get(place) else {
            return Ok(());
        };
        let Some(Some(depth)) = self.depths.get(place).copied() else {
            return Ok(());
        };
        self.follow(targets, *instr, place, depth)
    }

    fn follow(
        &mut self,
        targets: &[u16],
        instr: Instr,
        place: usize,
        depth: u16,
    ) -> Result<(), AllocError>
        requires { place < 65536 }
        ensures { OnOk result (found_by self.new ≡ followed targets.now instr place depth (found_by self.old)) }
    {
        let depth = u32::from(depth);
        let taken = operands_taken(instr);
        if depth < taken {
            return Ok(());
        }
        let rest = depth - taken;
        match &instr {
            Instr::Jump(target) => self.come_to(usize::from(*target), depth),
            Instr::JumpIfZero(target) => {
                self.come_to(usize::from(*target), rest)?;
                self.come_to(place + 1, rest)
            }
            Instr::JumpIfCase { target, .. } => {
                self.come_to(usize::from(*target), rest)?;
                self.come_to(place + 1, depth)
            }
            Instr::Goto => self.come_to_each(targets, rest),
            Instr::Return => Ok(()),
            _ => self.come_to(place + 1, rest + operands_put(instr)),
        }
    }

    fn come_to_each(&mut self, targets: &[u16], depth: u32) -> Result<(), AllocError>
        ensures { OnOk result (found_by self.new
            ≡ fold with_way (found_by self.old) (map (λ t. way t depth) targets.now)) }
    {
        for target in targets {
            self.come_to(usize::from(*target), depth)?;
        }
        Ok(())
    }

    fn come_to(&mut self, place: usize, depth: u32) -> Result<(), AllocError>
        ensures { OnOk result (found_by self.new ≡ with_way (found_by self.old) (way place depth)) }
    {
        if depth > MOST_OPERANDS {
            return Ok(());
        }
        let Some(None) = self.depths.get(place) else {
            return Ok(());
        };
        self.depths[place] = Some(depth as u16);
        self.pending.push(place)?;
        Ok(())
    }
}

/// How many operands an instruction takes.
pub fn operands_taken(instr: Instr) -> u32
    ensures value { result ≡ operands_taken instr }
    ensures few { result ≤ 65536 }
{
    match instr {
        Instr::Store | Instr::Binary(_) | Instr::Modify(_) => 2,
        Instr::Call(arguments) => u32::from(arguments) + 1,
        Instr::Load
        | Instr::Negate
        | Instr::Not
        | Instr::Increment(_)
        | Instr::JumpIfZero(_)
        | Instr::Goto
        | Instr::JumpIfCase { .. }
        | Instr::Return
        | Instr::Pop => 1,
        Instr::Constant(_)
        | Instr::External(_)
        | Instr::Automatic(_)
        | Instr::Text(_)
        | Instr::Label(_)
        | Instr::Jump(_) => 0,
    }
}

/// How many operands it has put when the call goes on at the next place.
pub fn operands_put(instr: Instr) -> u32
    ensures value { result ≡ operands_put instr }
    ensures few { result ≤ 1 }
{
    match instr {
        Instr::Jump(_) | Instr::JumpIfZero(_) | Instr::Goto | Instr::Return | Instr::Pop => 0,
        _ => 1,
    }
}
