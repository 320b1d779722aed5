// Random programs of four functions.
use crate::kinds::{CHAIN, DRAWN_TYPES, INT, LENGTHS, at, chain, types_of};
use crate::limits::{LIMITS, Limit};
use crate::maker::{Maker, Signature};
use crate::numbers::Numbers;
use core_terms::{Function, Kind, Program, Term, TyId};
use std::alloc::{AllocError, Global};
use term_stage::parts::program_of;
use term_stage::tables::name;

/// How many levels the body of a function has at most.
const LEVELS: u8 = 8;

/// The names of the functions.
const NAMES: [&[u8]; 4] = [b"first", b"second", b"third", b"linked"];

/// One program of so many is near a limit.
const LIMIT_EVERY: u64 = 18;

/// Lengths of arrays of arrays of arrays of 32,768 bytes each: 32 of them have as many bytes as fit.
const WIDTHS: [u8; 4] = [31, 32, 33, 64];

/// The lengths of a program: mostly small ones.
fn lengths(numbers: &mut Numbers) -> [u8; LENGTHS] {
    let mut lengths = [1; LENGTHS];
    for length in &mut lengths {
        *length = match numbers.below(30) {
            0 => 64,
            1 => 63,
            2 => 17,
            _ => 1 + numbers.below(4) as u8,
        };
    }
    lengths[LENGTHS - 1] = WIDTHS[numbers.below(WIDTHS.len())];
    lengths
}

/// Types of the parameters and of the result of a function, drawn.
fn signature(numbers: &mut Numbers, ids: &[TyId], alloc: Global) -> Result<Signature, AllocError> {
    let mut parameters = Vec::new(alloc);
    for _parameter in 0..numbers.below(4) {
        parameters.push(at(ids, numbers.below(DRAWN_TYPES)))?;
    }
    let result = at(ids, numbers.below(DRAWN_TYPES));
    Ok(Signature { parameters, result })
}

/// The signatures of a program: the first function takes an int, and the last one an int and a chain, and makes a chain.
fn signatures(
    numbers: &mut Numbers,
    limit: Option<Limit>,
    ids: &[TyId],
    alloc: Global,
) -> Result<Vec<Signature>, AllocError> {
    let place = match limit {
        Some(limit) => limit.place(),
        None => numbers.below(DRAWN_TYPES),
    };
    let mut signatures = Vec::new(alloc);
    signatures.push(Signature {
        parameters: Vec::from_slice(alloc, &[at(ids, INT)])?,
        result: at(ids, place),
    })?;
    signatures.push(signature(numbers, ids, alloc)?)?;
    signatures.push(signature(numbers, ids, alloc)?)?;
    signatures.push(Signature {
        parameters: Vec::from_slice(alloc, &[at(ids, INT), at(ids, CHAIN)])?,
        result: at(ids, CHAIN),
    })?;
    Ok(signatures)
}

/// The limit that the program of a seed is near; none where its terms are drawn.
pub fn limit_of(seed: u64) -> Option<Limit> {
    if seed % LIMIT_EVERY != 0 {
        return None;
    }
    LIMITS
        .get((seed / LIMIT_EVERY) as usize % LIMITS.len())
        .copied()
}

impl Maker<'_> {
    /// The body of the function at a place.
    fn body(&mut self, place: usize, limit: Option<Limit>) -> Result<Box<Term>, AllocError> {
        let signatures = self.signatures;
        match (place, limit, signatures.get(place)) {
            (3, _, _) => self.linking(),
            (0, Some(limit), _) => self.limit(limit),
            (_, _, Some(signature)) => {
                self.term(&signature.parameters, signature.result, LEVELS)
            }
            _ => Err(AllocError),
        }
    }

    /// The functions.
    fn functions(&mut self, limit: Option<Limit>) -> Result<Vec<Function>, AllocError> {
        let mut functions = Vec::new(self.alloc);
        let signatures = self.signatures;
        for (place, signature) in signatures.iter().enumerate() {
            let body = self.body(place, limit)?;
            let function = function(place, signature, body, self.alloc)?;
            functions.push(Box::into_inner(function))?;
        }
        Ok(functions)
    }
}

/// The function at a place, in a box.
fn function(
    place: usize,
    signature: &Signature,
    body: Box<Term>,
    alloc: Global,
) -> Result<Box<Function>, AllocError> {
    let name = name(NAMES.get(place).copied().unwrap_or(b"other"), alloc)?;
    let parameters = Vec::from_slice(alloc, &signature.parameters)?;
    Ok(Box::new(
        alloc,
        Function {
            name,
            kind: Kind::Inner,
            parameters,
            result: signature.result,
            body: Box::into_inner(body),
        },
    )?)
}

/// The program of a seed.
///
/// # Errors
///
/// `AllocError` where memory runs out, or where what is drawn is no program.
pub fn program_of_seed(alloc: Global, seed: u64) -> Result<Box<Program>, AllocError> {
    let mut numbers = Numbers::new(seed);
    let limit = limit_of(seed);
    let lengths = lengths(&mut numbers);
    let (types, ids) = types_of(&lengths, alloc)?;
    let named = chain(&ids, alloc)?;
    let signatures = signatures(&mut numbers, limit, &ids, alloc)?;
    let functions = {
        let mut maker = Maker {
            types: &types,
            ids: &ids,
            named: &named,
            signatures: &signatures,
            numbers,
            alloc,
        };
        maker.functions(limit)?
    };
    program_of(
        Box::into_inner(types),
        named,
        at(&ids, INT),
        functions,
        alloc,
    )
}
