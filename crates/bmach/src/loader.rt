//! The loader.
ghost use Rattle.std.specs.Prelude.{◌≡◌, ◌≤◌, [], IfOk, IfErr, IsTrue, IsErrOf, MatchResult, None, OnOk, flat_map, fold, map};
ghost use Rattle.blang.specs.declared.run.LoadFault.TheVariants as fault;
ghost use Rattle.blang.specs.Layout.{data_end, first_undefined, label_count, load_fault, names_in, shape_of};
ghost use Rattle.bmach.specs.Loading.{IsFault, first_part, fits_store, known_in, main_from, undefined_fault, with_definition};
ghost use Rattle.bmach.specs.Parts.{part_of};
ghost use Rattle.bmach.specs.Resolved.{IsLoadedFrom};

use crate::address_table::Addresses;
use crate::addresses::{FIRST_ADDRESS, addresses_of};
use crate::part::Part;
use crate::parts::{functions_in, is_main, labels_in, size_of};
use crate::{Image, LoadFault};
use blang::{Definition, MAX_PROGRAM_LABELS, STORE_WORDS};
use std::alloc::Global;

/// Word 0 and the library's externals, whose words are their values.
const FIRST_WORDS: [u16; 7] = [0, 1, 2, 3, 4, 5, 6];

/// Loads definitions, or says why they don't load. It takes no memory for an empty list.
pub fn load(alloc: Global, definitions: Vec<Definition>) -> Result<Image, LoadFault>
    ensures ok { IfOk result (λ image. IsLoadedFrom definitions.items image) }
    ensures loads { OnOk result (load_fault definitions.items ≡ None) }
    ensures err { IfErr result (λ f. IsFault f (load_fault definitions.items)) }
    ensures empty { definitions.items ≡ [] → IsErrOf result LoadFault.NoMain }
{
    if definitions.is_empty() {
        return Err(LoadFault::NoMain);
    }
    let list = definitions.as_slice();
    let addresses = addresses_of(alloc, list)?;
    if !fits(list) {
        return Err(LoadFault::TooLarge);
    }
    let main = main_of(list);
    let part = load_all(alloc, &addresses, definitions)?;
    match main {
        None => Err(LoadFault::NoMain),
        Some(main) => Ok(Image {
            functions: part.functions,
            main,
            words: part.words,
            addresses,
        }),
    }
}

/// Loads definitions as `load` does, and leaves them to the caller.
pub fn load_slice(alloc: Global, definitions: &[Definition]) -> Result<Image, LoadFault>
    ensures ok { IfOk result (λ image. IsLoadedFrom definitions.now image) }
    ensures loads { OnOk result (load_fault definitions.now ≡ None) }
    ensures err { IfErr result (λ f. IsFault f (load_fault definitions.now)) }
{
    let addresses = addresses_of(alloc, definitions)?;
    if !fits(definitions) {
        return Err(LoadFault::TooLarge);
    }
    let main = main_of(definitions);
    let part = load_each(alloc, &addresses, definitions)?;
    match main {
        None => Err(LoadFault::NoMain),
        Some(main) => Ok(Image {
            functions: part.functions,
            main,
            words: part.words,
            addresses,
        }),
    }
}

// Whether the store has room for the data, and words for the labels' values.
fn fits(definitions: &[Definition]) -> bool
    ensures { result ≡ fits_store (map shape_of definitions.now) }
{
    let mut end = u32::from(FIRST_ADDRESS);
    let mut labels = 0;
    for definition in definitions {
        end += u32::from(size_of(definition));
        labels += u32::from(labels_in(definition));
        if end > STORE_WORDS || labels > MAX_PROGRAM_LABELS {
            return false;
        }
    }
    true
}

// The words up to the data end, and the functions. Each definition goes as soon as it is loaded.
fn load_all(
    alloc: Global,
    addresses: &Addresses,
    definitions: Vec<Definition>,
) -> Result<Part, LoadFault>
    requires { IsTrue (fits_store (map shape_of definitions.items)) }
    ensures { MatchResult result
        (λ part. (part_of part ≡ fold (with_definition (known_in addresses.now)) first_part definitions.items)
        × (first_undefined (known_in addresses.now) (flat_map names_in definitions.items) ≡ None))
        (λ f. IsFault f (undefined_fault (known_in addresses.now) (flat_map names_in definitions.items))) }
{
    let mut part = first_part(alloc)?;
    for definition in definitions {
        part.add(alloc, addresses, &definition)?;
    }
    Ok(part)
}

// The words up to the data end, and the functions, of definitions that stay.
fn load_each(
    alloc: Global,
    addresses: &Addresses,
    definitions: &[Definition],
) -> Result<Part, LoadFault>
    requires { IsTrue (fits_store (map shape_of definitions.now)) }
    ensures { MatchResult result
        (λ part. (part_of part ≡ fold (with_definition (known_in addresses.now)) first_part definitions.now)
        × (first_undefined (known_in addresses.now) (flat_map names_in definitions.now) ≡ None))
        (λ f. IsFault f (undefined_fault (known_in addresses.now) (flat_map names_in definitions.now))) }
{
    let mut part = first_part(alloc)?;
    for definition in definitions {
        part.add(alloc, addresses, definition)?;
    }
    Ok(part)
}

// What a program has before its definitions.
fn first_part(alloc: Global) -> Result<Part, LoadFault>
    ensures { MatchResult result (λ part. part_of part ≡ first_part) (λ f. f ≡ fault.Memory) }
{
    Ok(Part {
        words: Vec::from_slice(alloc, &FIRST_WORDS)?,
        functions: Vec::new(alloc),
        first_label: 1,
    })
}

// Which of the functions is the main one.
fn main_of(definitions: &[Definition]) -> Option<usize>
    ensures { result ≡ main_from 0 definitions.now }
{
    let mut functions = 0;
    for definition in definitions {
        if is_main(definition) {
            return Some(functions);
        }
        functions += functions_in(definition);
    }
    None
}
