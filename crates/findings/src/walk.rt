// The walk over both logs, an entry of the order log at a time: what is wrong with it, if anything, and where the walk is behind it.
ghost use Rattle.std.specs.Prelude.{◌≡◌, ◌+◌, ◌≤◌, ◌<◌, length};
ghost use Rattle.std.proofs.Math.Option.{get_or};
ghost use Rattle.definitions.specs.Basic.{pick, is_none, concat, over, over_at};
ghost use Rattle.definitions.specs.Rows.{place_in, iei_of};
ghost use Rattle.definitions.specs.Logs.{known_iei, not_known, ignored};
ghost use Rattle.definitions.specs.Findings.{reason_kind};
ghost use Rattle.definitions.proofs.LogSteps.{KeptAt};
ghost use Rattle.order.specs.Order.{reason_as, placed_as};
ghost use Rattle.findings.specs.Findings.{found_of};
ghost use Rattle.findings.specs.Walks.{WellFormed, all_in, NextIs, JudgedAs, unmoved, Walking, Stepped};

use elements::element::iei_of;
use kept::entry_at;
use order::{IgnoredIeReason, Placed, entry_len, front_at};
use rows::index::place_of;

// Where the walk is: the positions in the two logs, the number of the entry there, and the highest place so far.
#[derive(Clone, Copy)]
pub struct Walk {
    pub order: usize,
    pub kept: usize,
    pub entry: usize,
    pub highest: usize,
}

// An entry judged: its kind, 0 where nothing is wrong; the highest place and the position in the kept log behind it.
#[derive(Clone, Copy)]
pub struct Judged {
    pub kind: u32,
    pub highest: usize,
    pub kept: usize,
}

// The same, with where the walk is behind the entry.
#[derive(Clone, Copy)]
pub struct Step {
    pub kind: u32,
    pub walk: Walk,
}

// The kept element at a position from which the log is well formed: its first octet, and the position behind it; None where none is left.
fn next_kept(kept: &[u8], at: usize) -> Option<(u8, usize)>
    requires { KeptAt kept.now at }
    ensures { NextIs kept.now at result }
{
    let count = entry_at(&kept[at..])?;
    let start = at + count.took;
    Some((kept[start], start + count.value))
}

// The place of an accepted element's IEI; one without a place counts as 0.
fn place_or_0(index: &[u8], iei: u8) -> usize
    ensures { result ≡ get_or (place_in index.now iei) 0 }
{
    place_of(index, iei).unwrap_or(0)
}

// An accepted element: 1 where its place is below the highest so far.
fn judge_known(index: &[u8], kept: &[u8], w: Walk, iei: u8) -> Judged
    requires { KeptAt kept.now w.kept }
    ensures { JudgedAs index.now kept.now w (known_iei iei) result }
{
    let place = place_or_0(index, iei);
    if place < w.highest {
        return Judged {
            kind: 1,
            highest: w.highest,
            kept: w.kept,
        };
    }
    Judged {
        kind: 0,
        highest: place,
        kept: w.kept,
    }
}

// An entry for which no kept element is left: nothing is wrong, and nothing moves.
fn without_element(w: Walk) -> Judged
    ensures { result ≡ unmoved w }
{
    let kind = 0;
    Judged {
        kind,
        highest: w.highest,
        kept: w.kept,
    }
}

// 2 where the IEI of a first octet has a place.
fn kind_of_unknown(index: &[u8], x: u8) -> u32
    ensures { result ≡ pick (is_none (place_in index.now (iei_of x))) 0 2 }
{
    let masked = iei_of(x);
    match place_of(index, masked) {
        Some(_) => 2,
        None => 0,
    }
}

// An unknown element, by its first octet in the kept log.
fn judge_unknown(index: &[u8], kept: &[u8], w: Walk) -> Judged
    requires { KeptAt kept.now w.kept }
    ensures { JudgedAs index.now kept.now w not_known result }
{
    match next_kept(kept, w.kept) {
        Some((x, to)) => Judged {
            kind: kind_of_unknown(index, x),
            highest: w.highest,
            kept: to,
        },
        None => without_element(w),
    }
}

fn kind_of_reason(reason: IgnoredIeReason) -> u32
    ensures { result ≡ reason_kind (reason_as reason) }
{
    match reason {
        IgnoredIeReason::Malformed => 3,
        IgnoredIeReason::Repeated => 4,
        IgnoredIeReason::OutOfSequence => 5,
    }
}

// An element that was set aside.
fn judge_ignored(index: &[u8], kept: &[u8], w: Walk, reason: IgnoredIeReason) -> Judged
    requires { KeptAt kept.now w.kept }
    ensures { JudgedAs index.now kept.now w (ignored (reason_as reason)) result }
{
    match next_kept(kept, w.kept) {
        Some((_, to)) => Judged {
            kind: kind_of_reason(reason),
            highest: w.highest,
            kept: to,
        },
        None => without_element(w),
    }
}

fn judge(index: &[u8], kept: &[u8], w: Walk, entry: Placed) -> Judged
    requires { KeptAt kept.now w.kept }
    ensures { JudgedAs index.now kept.now w (placed_as entry) result }
{
    match entry {
        Placed::Known(iei) => judge_known(index, kept, w, iei),
        Placed::Unknown => judge_unknown(index, kept, w),
        Placed::Ignored(reason) => judge_ignored(index, kept, w, reason),
    }
}

// Past the entry at a position from which the order log is well formed, so that there is one.
fn next_entry(index: &[u8], order: &[u8], kept: &[u8], w: Walk) -> Step
    requires { Walking order.now kept.now w × (w.order < length order.now) }
    ensures { Stepped index.now order.now kept.now w result }
{
    let at = w.order;
    match front_at(&order[at..]) {
        Some(entry) => {
            let judged = judge(&*index, &*kept, w, entry);
            let walk = Walk {
                order: at + entry_len(entry),
                kept: judged.kept,
                entry: w.entry + 1,
                highest: judged.highest,
            };
            Step {
                kind: judged.kind,
                walk,
            }
        }
        None => Step { kind: 0, walk: w },
    }
}

// How many findings there are.
pub(crate) fn count_findings(index: &[u8], order: &[u8], kept: &[u8]) -> usize
    requires { WellFormed order.now kept.now }
    ensures { (result ≡ length (all_in index.now order.now kept.now)) × (result ≤ length order.now) }
{
    let mut w = Walk {
        order: 0,
        kept: 0,
        entry: 0,
        highest: 0,
    };
    let mut n = 0;
    while w.order < order.len() {
        let s = next_entry(index, order, kept, w);
        if s.kind != 0 {
            n += 1;
        }
        let next = s.walk;
        w = next;
    }
    n
}

// A finding from a position on, if the kind is one; the position behind it.
fn put_found(findings: &mut [u32], at: usize, entry: usize, kind: u32) -> usize
    requires { (entry ≤ 131070) × (at + length (concat (found_of entry kind)) ≤ length findings.old) }
    ensures { (result ≡ at + length (concat (found_of entry kind))) × (findings.new ≡ over_at at (concat (found_of entry kind)) findings.old) }
{
    if kind == 0 {
        return at;
    }
    findings[at] = entry as u32;
    findings[at + 1] = kind;
    at + 2
}

// All findings into the front of a buffer that has room for them.
pub(crate) fn put_findings(index: &[u8], order: &[u8], kept: &[u8], findings: &mut [u32])
    requires { WellFormed order.now kept.now × (length (concat (all_in index.now order.now kept.now)) ≤ length findings.old) }
    ensures { findings.new ≡ over (concat (all_in index.now order.now kept.now)) findings.old }
{
    let mut w = Walk {
        order: 0,
        kept: 0,
        entry: 0,
        highest: 0,
    };
    let mut n = 0;
    while w.order < order.len() {
        let s = next_entry(index, order, kept, w);
        n = put_found(findings, n, w.entry, s.kind);
        let next = s.walk;
        w = next;
    }
}
