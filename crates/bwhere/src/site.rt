//! The functions of a code text, and the lines of their instructions.
ghost use Rattle.std.specs.Prelude.{◌≡◌, ◌≤◌, map, option_map};
ghost use Rattle.blang.specs.Layout.{data_end, shape_of};
ghost use Rattle.bwhere.specs.Sites.{instr_line, site_among, site_at, site_shown};

use blang::Definition;
use bmach::{FIRST_ADDRESS, size_of};
use btools::lines_in;

/// A function of a code text.
#[derive(Clone, Copy)]
pub(crate) struct Site<'a> {
    pub name: &'a [u8],
    /// The number of the line of its first instruction.
    pub first: u64,
    /// How many instructions it has.
    pub instructions: usize,
}

impl Site<'_> {
    /// The number of the line of the instruction at this place.
    pub(crate) fn line(&self, place: usize) -> u64
        ensures { result ≡ instr_line (site_shown self.now) place }
    {
        self.first.saturating_add(place as u64)
    }
}

/// The function whose string words lie there, among definitions before which there are so many lines.
pub(crate) fn site_of(definitions: &[Definition], opening: u64, strings: u32) -> Site<'_>
    requires { data_end (map shape_of definitions.now) ≤ 65536 }
    ensures { site_shown result ≡ site_among 7 opening strings definitions.now }
{
    let mut address = u32::from(FIRST_ADDRESS);
    let mut before = opening;
    for definition in definitions {
        if let Some(site) = site_at(definition, address, before, strings) {
            return site;
        }
        address += u32::from(size_of(definition));
        before = before.saturating_add(lines_in(definition));
    }
    Site {
        name: b"",
        first: 0,
        instructions: 0,
    }
}

// The function of a definition that lies at this address, after so many lines, if its string words lie there.
fn site_at(definition: &Definition, address: u32, before: u64, strings: u32) -> Option<Site<'_>>
    requires { address ≤ 65536 }
    ensures { option_map site_shown result ≡ site_at address before strings definition.now }
{
    let Definition::Function(function) = definition else {
        return None;
    };
    if strings != address + 1 {
        return None;
    }
    let parts = function.parts();
    let head = (2 + parts.targets.len() + parts.strings.len()) as u64;
    Some(Site {
        name: parts.name.as_bytes(),
        first: before.saturating_add(head),
        instructions: parts.code.len(),
    })
}
