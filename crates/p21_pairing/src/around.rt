//! Pairs by what instances say, and by what is around them.
//!
//! First what is alone in what it says with all that it refers to, and in what it says itself; then, round by round, what is alone at the
//! first level of `LEVELS` that has any, where partners stand for one another. What is then alike at the first level are copies: those to
//! which nothing refers that has no partner are paired in the order of the files, or else two of them, and what hangs on them follows in
//! rounds. That is done for one copy after the other, up to `MOST_COPIES` times; then all others are paired in order, and at last what
//! says the same itself, and what is of one kind.
ghost use Rattle.std.specs.Prelude.{◌≡◌, ◌<◌, ◌+◌, ℕ, length, IfOk};
ghost use Rattle.p21_numbering.specs.Arrays.{rank_at};
ghost use Rattle.p21_pairing.specs.Clauses.{AreForBoth, AreWithin, Fit, LeavesNone, More};

use crate::alone::pair_alone;
use crate::choices::pair_in_order;
use crate::kinds::{ranks_of, ranks_of_lent};
use crate::pairs::Pairs;
use crate::whole::whole_labels;
use p21_numbering::{Node, PlacedUse};
use std::alloc::{AllocError, Global};

/// Pairs spread over so many steps from those before.
const MOST_ROUNDS: usize = 40;

/// So often copies are chosen.
const MOST_COPIES: usize = 100;

/// A reference to another instance (0), or by another one (1), the number of its place, and that instance.
pub(crate) type Neighbour = (u8, u64, usize);

/// What each instance says, as a number, the same with all that it refers to, and what is around it.
#[derive(Drop)]
struct Around {
    labels: Vec<usize>,
    wholes: Vec<usize>,
    neighbours: Vec<Vec<Neighbour>>,
}

/// What of an instance itself counts for its key: its kind; what it says; or that with all that it refers to.
#[derive(Clone, Copy)]
enum Own {
    Kind,
    Label,
    Whole,
}

/// What around an instance counts: all that refers to it and that it refers to, what has no partner by what of it; or what has partners
/// alone, on both sides, above, or below.
#[derive(Clone, Copy)]
enum Sides {
    All,
    Paired,
    Above,
    Below,
}

/// What counts for the key of an instance.
type Level = (Own, Sides);

/// The level at which what is alike are copies.
const COPIES: Level = (Own::Whole, Sides::All);

/// The level at which partners are alike, if nothing differs by them.
const PARTNERS: Level = (Own::Label, Sides::All);

const LEVELS: &[Level] = &[
    COPIES,
    (Own::Whole, Sides::Paired),
    (Own::Whole, Sides::Above),
    (Own::Whole, Sides::Below),
    PARTNERS,
    (Own::Label, Sides::Paired),
    (Own::Label, Sides::Above),
    (Own::Label, Sides::Below),
    (Own::Kind, Sides::Paired),
    (Own::Kind, Sides::Below),
    (Own::Kind, Sides::Above),
];

/// The pairs, and those of instances that are alone in their files in what they say and in what is around them, round by round; then
/// those of instances that are alike in this, and of one kind, in order. Of those that were chosen so it keeps the ones by which
/// something differs.
pub fn pair_around(
    alloc: Global,
    nodes: &[Node],
    kinds: &[usize],
    pairs: Pairs,
) -> Result<Pairs, AllocError>
    requires nodes { length nodes.now ≡ length pairs.partners.items + length pairs.owners.items }
    requires kinds { AreForBoth kinds.now pairs }
    requires within { AreWithin kinds.now }
    requires pairs { Fit kinds.now pairs }
    ensures more { IfOk result (λ more. More kinds.now pairs more) }
    ensures none_left { IfOk result (λ more. LeavesNone kinds.now kinds.now pairs more) }
{
    let around = surroundings(alloc, nodes)?;
    let near = pair_near(alloc, &around, kinds, pairs)?;
    let mut left = pair_in_order(alloc, kinds, kinds, near)?;
    left.chosen = telling(alloc, &around, &left)?;
    Ok(left)
}

/// The pairs, and those of instances that are alone in what they say and in what is around them, or are alike in this.
fn pair_near(
    alloc: Global,
    around: &Around,
    kinds: &[usize],
    pairs: Pairs,
) -> Result<Pairs, AllocError>
    requires labels { AreForBoth around.now.labels.items pairs }
    requires labels_within { AreWithin around.now.labels.items }
    requires wholes { AreForBoth around.now.wholes.items pairs }
    requires wholes_within { AreWithin around.now.wholes.items }
    requires kinds { AreForBoth kinds.now pairs }
    requires pairs { Fit kinds.now pairs }
    ensures { IfOk result (λ more. More kinds.now pairs more) }
{
    let whole = pair_alone(alloc, &around.wholes, kinds, pairs)?;
    let alone = pair_alone(alloc, &around.labels, kinds, whole)?;
    let near = pair_rounds(alloc, around, kinds, alone)?;
    let chosen = pair_choices(alloc, around, kinds, near)?;
    let alike = pair_alike(alloc, around, kinds, COPIES, chosen)?;
    let left = pair_in_order(alloc, &around.labels, kinds, alike)?;
    Ok(left)
}

/// The instances of the first file that were given a partner by choice and differ from it.
fn telling(alloc: Global, around: &Around, pairs: &Pairs) -> Result<Vec<usize>, AllocError> {
    let mut found = Vec::new(alloc);
    for one in &pairs.chosen {
        let one: usize = *one;
        if !fits(alloc, around, pairs, one)? {
            found.push(one)?;
        }
    }
    Ok(found)
}

/// Whether an instance of the first file says what its partner says, and partners are around both.
fn fits(alloc: Global, around: &Around, pairs: &Pairs, one: usize) -> Result<bool, AllocError> {
    let Some(Some(partner)) = pairs.partners.get(one) else {
        return Ok(false);
    };
    let other = pairs.partners.len().saturating_add(*partner);
    if number(around, 0, Own::Label, one) != number(around, 0, Own::Label, other) {
        return Ok(false);
    }
    let own = entries(alloc, around, PARTNERS, pairs, one)?;
    let its = entries(alloc, around, PARTNERS, pairs, other)?;
    Ok(own == its)
}

/// The pairs, and those that spread from them.
fn pair_rounds(
    alloc: Global,
    around: &Around,
    kinds: &[usize],
    pairs: Pairs,
) -> Result<Pairs, AllocError>
    requires kinds { AreForBoth kinds.now pairs }
    requires pairs { Fit kinds.now pairs }
    ensures { IfOk result (λ more. More kinds.now pairs more) }
{
    let mut more = pairs;
    for round in 0..MOST_ROUNDS {
        let before = paired(&more.partners);
        more = pair_round(alloc, around, kinds, more)?;
        let is_done = paired(&more.partners) == before;
        if is_done {
            return Ok(more);
        }
    }
    Ok(more)
}

/// The pairs, and those of the first level that has any.
fn pair_round(
    alloc: Global,
    around: &Around,
    kinds: &[usize],
    pairs: Pairs,
) -> Result<Pairs, AllocError>
    requires kinds { AreForBoth kinds.now pairs }
    requires pairs { Fit kinds.now pairs }
    ensures { IfOk result (λ more. More kinds.now pairs more) }
{
    let before = paired(&pairs.partners);
    let mut more = pairs;
    for level in LEVELS {
        let keys = keys(alloc, around, kinds, *level, &more)?;
        more = pair_alone(alloc, &keys, kinds, more)?;
        let is_found = paired(&more.partners) != before;
        if is_found {
            return Ok(more);
        }
    }
    Ok(more)
}

/// The pairs, and those of copies that are chosen, with what spreads from them.
fn pair_choices(
    alloc: Global,
    around: &Around,
    kinds: &[usize],
    pairs: Pairs,
) -> Result<Pairs, AllocError>
    requires kinds { AreForBoth kinds.now pairs }
    requires pairs { Fit kinds.now pairs }
    ensures { IfOk result (λ more. More kinds.now pairs more) }
{
    let mut more = pairs;
    for choice in 0..MOST_COPIES {
        let before = paired(&more.partners);
        more = pair_choice(alloc, around, kinds, more)?;
        let is_done = paired(&more.partners) == before;
        if is_done {
            return Ok(more);
        }
    }
    Ok(more)
}

/// The pairs, and those of one copy that is chosen, with what spreads from them.
fn pair_choice(
    alloc: Global,
    around: &Around,
    kinds: &[usize],
    pairs: Pairs,
) -> Result<Pairs, AllocError>
    requires kinds { AreForBoth kinds.now pairs }
    requires pairs { Fit kinds.now pairs }
    ensures { IfOk result (λ more. More kinds.now pairs more) }
{
    let alike = keys(alloc, around, kinds, COPIES, &pairs)?;
    let Some(copies) = chosen_copies(alloc, around, &alike, &pairs)? else {
        return Ok(pairs);
    };
    let chosen = chosen_keys(alloc, &alike, copies, kinds, &pairs)?;
    let mut some = pair_in_order(alloc, &chosen, kinds, pairs)?;
    some.chosen.push(copies.first)?;
    let more = pair_rounds(alloc, around, kinds, some)?;
    Ok(more)
}

/// Copies that are chosen: the first one of each file, by their positions among both, and whether nothing refers to them that has no
/// partner.
#[derive(Clone, Copy)]
struct Copies {
    first: usize,
    second: usize,
    are_free: bool,
}

/// Keys by which the chosen copies have one key, all of them or the first one of each file, and each other instance a key of its own.
fn chosen_keys(
    alloc: Global,
    alike: &[usize],
    copies: Copies,
    kinds: &[usize],
    pairs: &Pairs,
) -> Result<Vec<usize>, AllocError>
    ensures size { IfOk result (λ keys. length keys.items ≡ length kinds.now) }
    ensures within { IfOk result (λ keys. (k : ℕ) → k < length kinds.now → rank_at keys.items k < length kinds.now) }
{
    let mut rows = Vec::with_capacity(alloc, kinds.len())?;
    for k in 0..kinds.len() {
        rows.push(mark(alloc, alike, copies, pairs, k)?)?;
    }
    let keys = ranks_of(alloc, &rows)?;
    Ok(keys)
}

/// One row for the copies that are chosen, and others for all other instances.
fn mark(
    alloc: Global,
    alike: &[usize],
    copies: Copies,
    pairs: &Pairs,
    one: usize,
) -> Result<Vec<u64>, AllocError> {
    let mut row = Vec::new(alloc);
    let is_chosen = match copies.are_free {
        true => alike.get(one) == alike.get(copies.first) && pair_of(pairs, one).is_none(),
        false => one == copies.first || one == copies.second,
    };
    if !is_chosen {
        row.push(one as u64)?;
    }
    Ok(row)
}

/// The first copies to which nothing refers that has no partner, or else the first ones.
fn chosen_copies(
    alloc: Global,
    around: &Around,
    alike: &[usize],
    pairs: &Pairs,
) -> Result<Option<Copies>, AllocError> {
    let seconds = first_of_second(alloc, alike, pairs)?;
    let mut found = None;
    for first in 0..pairs.partners.len() {
        if let Some(second) = mate(alike, &seconds, pairs, first) {
            let are_free = is_free(around, pairs, first);
            let copies = Copies {
                first,
                second,
                are_free,
            };
            if are_free {
                return Ok(Some(copies));
            }
            found = found.or(Some(copies));
        }
    }
    Ok(found)
}

/// The one that is the first of the second file to have the key of an instance of the first file, if neither has a partner.
fn mate(alike: &[usize], seconds: &[Option<usize>], pairs: &Pairs, one: usize) -> Option<usize> {
    if pair_of(pairs, one).is_some() {
        return None;
    }
    match seconds.get(*alike.get(one)?) {
        Some(second) => *second,
        None => None,
    }
}

/// Whether nothing refers to an instance that has no partner.
fn is_free(around: &Around, pairs: &Pairs, one: usize) -> bool {
    let Some(neighbours) = around.neighbours.get(one) else {
        return true;
    };
    for neighbour in neighbours {
        let (side, _, other) = *neighbour;
        if side == 1 && pair_of(pairs, other).is_none() {
            return false;
        }
    }
    true
}

/// For each key the first instance of the second file without a partner that has it, by its position among both files.
fn first_of_second(
    alloc: Global,
    alike: &[usize],
    pairs: &Pairs,
) -> Result<Vec<Option<usize>>, AllocError> {
    let mut seconds = vec![in alloc; None; alike.len()]?;
    for k in pairs.partners.len()..alike.len() {
        if pair_of(pairs, k).is_none() {
            note(&mut seconds, alike[k], k);
        }
    }
    Ok(seconds)
}

/// Notes the first one of each key.
fn note(seconds: &mut Vec<Option<usize>>, key: usize, one: usize) {
    if let Some(cell) = seconds.get_mut(key) {
        if cell.is_none() {
            *cell = Some(one);
        }
    }
}

/// The pairs, and those of instances that are alike at a level, in order.
fn pair_alike(
    alloc: Global,
    around: &Around,
    kinds: &[usize],
    level: Level,
    pairs: Pairs,
) -> Result<Pairs, AllocError>
    requires kinds { AreForBoth kinds.now pairs }
    requires pairs { Fit kinds.now pairs }
    ensures { IfOk result (λ more. More kinds.now pairs more) }
{
    let keys = keys(alloc, around, kinds, level, &pairs)?;
    let more = pair_in_order(alloc, &keys, kinds, pairs)?;
    Ok(more)
}

/// How many have a partner.
fn paired(partners: &[Option<usize>]) -> usize {
    let mut count: usize = 0;
    for one in partners {
        if one.is_some() {
            count = count.saturating_add(1);
        }
    }
    count
}

/// The key of each instance at a level.
fn keys(
    alloc: Global,
    around: &Around,
    kinds: &[usize],
    level: Level,
    pairs: &Pairs,
) -> Result<Vec<usize>, AllocError>
    ensures size { IfOk result (λ keys. length keys.items ≡ length kinds.now) }
    ensures within { IfOk result (λ keys. (k : ℕ) → k < length kinds.now → rank_at keys.items k < length kinds.now) }
{
    let mut rows = Vec::with_capacity(alloc, kinds.len())?;
    for k in 0..kinds.len() {
        rows.push(key(alloc, around, kinds[k], level, pairs, k)?)?;
    }
    let keys = ranks_of(alloc, &rows)?;
    Ok(keys)
}

/// The key of an instance of this kind, as a row; an empty one, where it has a partner, or no partners are around it where these alone
/// count.
fn key(
    alloc: Global,
    around: &Around,
    kind: usize,
    level: Level,
    pairs: &Pairs,
    one: usize,
) -> Result<Vec<u64>, AllocError> {
    let mut row = Vec::new(alloc);
    if pair_of(pairs, one).is_some() {
        return Ok(row);
    }
    let entries = entries(alloc, around, level, pairs, one)?;
    if entries.is_empty() && !takes_free(level) {
        return Ok(row);
    }
    row.push(number(around, kind, level.0, one))?;
    for entry in &entries {
        let (side, place, is_free, number) = *entry;
        row.push(u64::from(side))?;
        row.push(place)?;
        row.push(u64::from(is_free))?;
        row.push(number)?;
    }
    Ok(row)
}

/// What is around an instance and counts at a level, in order: the side, the place, whether it has no partner, and the number of the
/// pair or of what it says.
fn entries(
    alloc: Global,
    around: &Around,
    level: Level,
    pairs: &Pairs,
    one: usize,
) -> Result<Vec<(u8, u64, bool, u64)>, AllocError> {
    let mut entries = Vec::new(alloc);
    let Some(neighbours) = around.neighbours.get(one) else {
        return Ok(entries);
    };
    for neighbour in neighbours {
        let (side, place, other) = *neighbour;
        if takes(level, side) {
            match pair_of(pairs, other) {
                Some(pair) => entries.push((side, place, false, pair))?,
                None => {
                    if takes_free(level) {
                        entries.push((side, place, true, number(around, 0, level.0, other)))?;
                    }
                }
            }
        }
    }
    entries.sort_unstable();
    Ok(entries)
}

/// Whether what an instance refers to (0) or what refers to it (1) counts at a level.
fn takes(level: Level, side: u8) -> bool {
    match level.1 {
        Sides::All => true,
        Sides::Paired => true,
        Sides::Above => side == 1,
        Sides::Below => side == 0,
    }
}

/// Whether what has no partner counts at a level.
fn takes_free(level: Level) -> bool {
    match level.1 {
        Sides::All => true,
        _ => false,
    }
}

/// The number of what of an instance counts, where it is of this kind.
fn number(around: &Around, kind: usize, own: Own, one: usize) -> u64 {
    let numbers = match own {
        Own::Kind => return kind as u64,
        Own::Label => &around.labels,
        Own::Whole => &around.wholes,
    };
    match numbers.get(one) {
        Some(number) => *number as u64,
        None => 0,
    }
}

/// The number of the pair that an instance is in, by its position among both files.
fn pair_of(pairs: &Pairs, one: usize) -> Option<u64> {
    let first = pairs.partners.len();
    if one < first {
        return match pairs.partners[one] {
            Some(_) => Some(one as u64),
            None => None,
        };
    }
    match pairs.owners.get(one - first) {
        Some(Some(owner)) => Some(*owner as u64),
        _ => None,
    }
}

/// What is around the nodes.
fn surroundings(alloc: Global, nodes: &[Node]) -> Result<Around, AllocError>
    ensures labels { IfOk result (λ around. length around.labels.items ≡ length nodes.now) }
    ensures labels_within { IfOk result (λ around. AreWithin around.labels.items) }
    ensures wholes { IfOk result (λ around. length around.wholes.items ≡ length nodes.now) }
    ensures wholes_within { IfOk result (λ around. AreWithin around.wholes.items) }
{
    let labels = labels(alloc, nodes)?;
    let neighbours = neighbours(alloc, nodes)?;
    let wholes = whole_labels(alloc, &neighbours, &labels)?;
    Ok(Around {
        labels,
        wholes,
        neighbours,
    })
}

/// What is around each node.
fn neighbours(alloc: Global, nodes: &[Node]) -> Result<Vec<Vec<Neighbour>>, AllocError> {
    let mut places = places(alloc, nodes)?;
    places.reverse();
    let mut neighbours = Vec::with_capacity(alloc, nodes.len())?;
    for node in nodes {
        neighbours.push(Vec::new(alloc))?;
    }
    for k in 0..nodes.len() {
        for one in &nodes[k].uses {
            let one: &PlacedUse = one;
            let Some(place) = places.pop() else {
                return Ok(neighbours);
            };
            add(&mut neighbours, k, (0, place as u64, one.target as usize))?;
            add(&mut neighbours, one.target as usize, (1, place as u64, k))?;
        }
    }
    Ok(neighbours)
}

/// Adds what is around an instance.
fn add(
    neighbours: &mut Vec<Vec<Neighbour>>,
    one: usize,
    neighbour: Neighbour,
) -> Result<(), AllocError> {
    match neighbours.get_mut(one) {
        Some(row) => Ok(row.push(neighbour)?),
        None => Ok(()),
    }
}

/// The number of what each node says.
fn labels(alloc: Global, nodes: &[Node]) -> Result<Vec<usize>, AllocError>
    ensures size { IfOk result (λ labels. length labels.items ≡ length nodes.now) }
    ensures within { IfOk result (λ labels. (k : ℕ) → k < length nodes.now → rank_at labels.items k < length nodes.now) }
{
    let mut rows = Vec::with_capacity(alloc, nodes.len())?;
    for node in nodes {
        let node: &Node = node;
        rows.push(node.label.as_slice())?;
    }
    let labels = ranks_of_lent(alloc, &rows)?;
    Ok(labels)
}

/// The number of the place of each reference, node by node.
fn places(alloc: Global, nodes: &[Node]) -> Result<Vec<usize>, AllocError> {
    let mut rows = Vec::new(alloc);
    for node in nodes {
        let node: &Node = node;
        rows = with_places(rows, &node.uses)?;
    }
    ranks_of_lent(alloc, &rows)
}

/// The places, and behind them those of more references.
fn with_places<'a>(
    rows: Vec<&'a [u64]>,
    uses: &'a [PlacedUse],
) -> Result<Vec<&'a [u64]>, AllocError> {
    let mut more = rows;
    for one in uses {
        let one: &PlacedUse = one;
        more.push(one.place.as_slice())?;
    }
    Ok(more)
}
