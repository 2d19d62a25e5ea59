//! The division whose cost is least.
//!
//! From the last stretch to the first, the best line to begin with it is sought, and kept with what it and all lines
//! after it cost. Only lines that fit are tried, the longest first, and the one that holds only this stretch. All lines
//! after an end that is in reach cost at least a floor. Shorter lines are not tried once the columns that they are
//! short of, added to the floor, cost as much as the best line. The floor of a place is the lesser of that of the next
//! one and of what the place costs itself. It is sought anew only once in the length of a line.
//!
//! The division that costs the least without a ladder costs the least with one that it keeps to, too. So it is sought
//! first. Else the cost of lines depends on the hyphens in a row before them. So with a ladder of n lines the best line
//! is sought after each run of 0 to n hyphens. After a longer run it is that after n. A line that is known to be the
//! best after longer runs, too, is sought and kept once for all of them. So at most places there are few. Each run has
//! its own floor.

ghost use Rattle.std.specs.Prelude.{◌≡◌, ℕ, ◌+◌, ◌-◌, ◌*◌, ◌^◌, ◌<◌, ◌≤◌, ◌⊎◌, true, false, IfOk, MatchBool, length};
ghost use Rattle.line_division.specs.Lines.{line_width, wanted_columns, line_over};
ghost use Rattle.line_division.specs.Division.{MayStand, Divides, CostsLeast, FitsIfAny, KeepsLadderIfAny};
ghost use Rattle.line_division.specs.Cost.{CostsNoMore};
ghost use Rattle.line_division.specs.Private.Best.{runs, run_of, floor_after, IsSmall, EachIsLow};
ghost use Rattle.line_division.specs.Private.Plain.{IsSpentAlone};
ghost use Rattle.line_division.specs.Private.Problem.{line_cost_of, IsMadeOf, AreBestOf, AreBestFrom, AreBestWith};
ghost use Rattle.line_division.specs.Private.Problem.{CostsLeastWith, KeepsLadderWith, IsBestOf, IsFloorOf};
ghost use Rattle.line_division.specs.Private.Problem.{GivesFloorOf};
ghost use Rattle.line_division.specs.Private.Problem.{GiveFloorsOf, AreFloorsOf};
ghost use Rattle.line_division.specs.Private.Reaches.{IsReach};
ghost use Rattle.line_division.specs.Private.Table.{IsOpen};

use crate::cost::Cost;
use crate::ladder::{hyphens_to, keeps_ladder};
use crate::problem::{Begin, MeasuredParagraph, Problem, each_fits, widest_of};
use crate::reach::{Reach, last_reach, longest_line, reach_before};
use crate::stretch::{Stretch, widened};
use crate::table::{
    Choice, Choices, Faults, First, Kept, begin_others, choice_at, keep_first, kept_at,
};
use std::alloc::{AllocError, Global};

// Returns the columns that a line should have at least.
#[inline(always)]
fn wanted_columns(stretches: &[Stretch], columns: u16, last_columns: u16, end: usize) -> u16
    ensures { result ≡ wanted_columns stretches.now columns last_columns end }
{
    if end == stretches.len() {
        last_columns
    } else {
        columns
    }
}

// Returns the square of the columns that a line of this width is short of.
#[inline(always)]
fn square_lacked(wanted: u16, wide: u64) -> u64
    ensures value { result ≡ (wanted - wide) * (wanted - wide) }
    ensures small { result < 2 ^ 32 }
{
    let free = u64::from(wanted).saturating_sub(wide);
    free * free
}

// Returns how many runs of hyphens are distinguished.
#[inline(always)]
fn runs(ladder: Option<u8>) -> usize
    ensures value { result ≡ runs ladder }
    ensures some { 1 ≤ result }
    ensures small { result ≤ 2 ^ 8 }
{
    match ladder {
        Some(most) => usize::from(most) + 1,
        None => 1,
    }
}

// Returns the state for that many hyphens in a row.
#[inline(always)]
fn run_of(ladder: Option<u8>, hyphens: usize) -> usize
    ensures value { result ≡ run_of ladder hyphens }
    ensures known { result < runs ladder }
{
    let runs = runs(ladder);
    if hyphens < runs { hyphens } else { runs - 1 }
}

// Returns 1 for a line at whose end more hyphens are in a row than the ladder may have, and else 0.
#[inline(always)]
fn line_over(ladder: Option<u8>, hyphens: usize) -> u64
    ensures value { result ≡ line_over ladder hyphens }
    ensures small { result ≤ 1 }
{
    match ladder {
        Some(most) => u64::from(usize::from(most) < hyphens),
        None => 0,
    }
}

// Returns the cost of a line of this width, at whose end that many hyphens are in a row.
#[inline(always)]
fn line_cost(problem: Problem, hyphens: usize, start: usize, end: usize, wide: u64) -> Cost
    requires order { start < end }
    requires within { end ≤ length problem.stretches.now }
    requires wide { wide ≡ line_width problem.stretches.now start end }
    ensures value { result ≡ line_cost_of problem.entry hyphens start end }
    ensures excess { result.excess ≤ wide }
    ensures over { result.over ≤ 1 }
    ensures spent { result.spent < 2 ^ 33 }
{
    let wanted = wanted_columns(
        problem.stretches,
        problem.columns,
        problem.last_columns,
        end,
    );
    Cost {
        excess: wide.saturating_sub(u64::from(problem.columns)),
        over: line_over(problem.ladder, hyphens),
        spent: square_lacked(wanted, wide) + widened(problem.stretches[end - 1].price),
    }
}

// Returns a cost as it is. Where it is plain, the compiler learns that nothing but what is spent counts.
#[inline(always)]
fn as_known(plain: bool, cost: Cost) -> Cost
    requires { plain ≡ true → IsSpentAlone cost }
    ensures { result ≡ cost }
{
    if plain {
        Cost {
            excess: 0,
            over: 0,
            spent: cost.spent,
        }
    } else {
        cost
    }
}

// Returns the line of this width, followed by the best lines after it.
#[inline(always)]
fn choose(begin: Begin, choices: &Choices, end: usize, wide: u64) -> Choice
    requires order { begin.start < end }
    requires within { end ≤ length begin.problem.stretches.now }
    requires wide { wide ≡ line_width begin.problem.stretches.now begin.start end }
    requires narrow { wide < 2 ^ 34 }
    requires stands { MayStand begin.problem.stretches.now begin.problem.columns begin.start end }
    requires best { AreBestOf begin.problem choices.now begin.start begin.run }
    ensures made { IsMadeOf begin.entry.problem choices.now begin.entry.run begin.entry.start result }
    ensures small { IsSmall result.cost (length begin.entry.problem.stretches.now - begin.entry.start) }
    ensures end { result.end ≡ end }
{
    let Begin {
        problem,
        start,
        run,
    } = begin;
    let hyphens = hyphens_to(problem.stretches, run, end);
    let line = line_cost(problem, hyphens, start, end, wide);
    let after = choice_at(choices, run_of(problem.ladder, hyphens), end);
    let cost = as_known(problem.plain, line.plus(after.cost));
    Choice { cost, end }
}

// Returns a cost that is no more than either.
#[inline(always)]
fn lesser(one: Cost, other: Cost) -> Cost
    ensures first { CostsNoMore result one }
    ensures second { CostsNoMore result other }
    ensures either { (result ≡ one) ⊎ (result ≡ other) }
{
    if other.is_less(one) { other } else { one }
}

// Returns what an end costs after a run of hyphens, with the best lines after it. It is all but what its own line
// spends and has too many.
#[inline(always)]
fn cost_after(problem: Problem, choices: &Choices, run: usize, end: usize) -> Cost
    requires run { run < runs problem.ladder }
    requires some { 1 ≤ end }
    requires within { end ≤ length problem.stretches.now }
    requires best { AreBestFrom problem choices.now end }
    ensures floor { IsFloorOf problem.entry run end end result }
    ensures low { result.spent ≤ 2 ^ 63 }
{
    let hyphens = hyphens_to(problem.stretches, run, end);
    let after = choice_at(choices, run_of(problem.ladder, hyphens), end);
    let over = Cost {
        excess: 0,
        over: line_over(problem.ladder, hyphens),
        spent: 0,
    };
    as_known(problem.plain, over.plus(after.cost))
}

// Returns a floor of the lines after a run of hyphens that end at a place, or at one after it up to another.
#[inline(always)]
fn floor_of(problem: Problem, choices: &Choices, run: usize, start: usize, last: usize) -> Cost
    requires run { run < runs problem.ladder }
    requires some { 1 ≤ start }
    requires order { start ≤ last }
    requires within { last ≤ length problem.stretches.now }
    requires best { AreBestFrom problem choices.now start }
    ensures floor { IsFloorOf problem.entry run start last result }
    ensures low { result.spent ≤ 2 ^ 63 }
{
    let mut floor = cost_after(problem, choices, run, start);
    for place in start + 1..last + 1 {
        floor = lesser(floor, cost_after(problem, choices, run, place));
    }
    floor
}

// The places at which lines end, from one to another, and whether the floor of these lines is sought anew.
#[derive(Clone, Copy)]
struct Span {
    start: usize,
    last: usize,
    renewed: bool,
}

// Returns a floor of the lines that end in a span. One is known for those that end a stretch later.
#[inline(always)]
fn next_floor(problem: Problem, choices: &Choices, run: usize, span: Span, floor: Cost) -> Cost
    requires run { run < runs problem.ladder }
    requires order { span.start ≤ span.last }
    requires within { span.last ≤ length problem.stretches.now }
    requires best { AreBestFrom problem choices.now span.start }
    ensures floor { GivesFloorOf problem.entry run span.start span.last floor result }
    ensures low { floor.spent ≤ 2 ^ 63 → result.spent ≤ 2 ^ 63 }
{
    if span.start == 0 {
        return floor;
    }
    if span.renewed {
        return floor_of(problem, choices, run, span.start, span.last);
    }
    lesser(floor, cost_after(problem, choices, run, span.start))
}

// Makes the floors of lines that end a stretch later those of lines that end in a span. There is one for each run that
// is not empty.
#[inline(always)]
fn next_floors(problem: Problem, choices: &Choices, span: Span, floors: &mut Vec<Cost>)
    requires order { span.start ≤ span.last }
    requires within { span.last ≤ length problem.stretches.now }
    requires best { AreBestFrom problem choices.now span.start }
    requires many { length floors.old.items + 1 ≡ runs problem.ladder }
    ensures many { length floors.new.items + 1 ≡ runs problem.entry.ladder }
    ensures floors { GiveFloorsOf problem.entry span.start span.last floors.old.items floors.new.items }
    ensures low { EachIsLow floors.old.items → EachIsLow floors.new.items }
{
    for run in 1..runs(problem.ladder) {
        floors[run - 1] = next_floor(problem, choices, run, span, floors[run - 1]);
    }
}

// Returns the place at which floors were sought anew the last time.
#[inline(always)]
fn renewed_at(span: Span, before: usize) -> usize {
    if span.renewed { span.start } else { before }
}

// Returns the floor after a run that is not empty.
#[inline(always)]
fn floor_after(floors: &[Cost], run: usize) -> Cost
    requires some { 1 ≤ run }
    requires known { run < length floors.now + 1 }
    ensures { result ≡ floor_after floors.now run }
{
    floors[run - 1]
}

// Reports whether a line of this width is allowed.
#[inline(always)]
fn may_stand(columns: u16, plain: bool, start: usize, last: usize, wide: u64) -> bool
    requires order { start ≤ last }
    requires plain { plain ≡ true → last ≡ start → wide ≤ columns }
    ensures { MatchBool result ((wide ≤ columns) ⊎ (last ≡ start)) ((columns < wide) × (start < last)) }
{
    wide <= u64::from(columns) || (!plain && last == start)
}

// Reports whether a cost is no more than that of any line that is short of that many columns or more. The lines after
// it cost at least a floor.
#[inline(always)]
fn is_enough(best: Cost, floor: Cost, lacked: u64) -> bool
    requires lacked { lacked < 2 ^ 16 }
    requires low { floor.spent ≤ 2 ^ 63 }
    ensures { result ≡ true → (best.excess ≡ floor.excess) × (best.over ≡ floor.over)
        × (best.spent ≤ floor.spent + lacked * lacked) }
{
    best.spent <= floor.spent + lacked * lacked
        && best.excess == floor.excess
        && best.over == floor.over
}

// Returns the line that is best to begin at a place after a run of hyphens, where the best ones after it are known.
//
// The lines that are allowed are tried from the longest one on. A line is not tried once the columns that it is short
// of, added to the floor, cost as much as the best line so far.
#[inline(always)]
fn best_line(begin: Begin, floor: Cost, choices: &Choices, reach: Reach) -> Choice
    requires best { AreBestOf begin.problem choices.now begin.start begin.run }
    requires reach { IsReach begin.problem.stretches.now begin.problem.columns begin.start reach }
    requires floor { IsFloorOf begin.problem begin.run (begin.start + 1) (reach.last + 1) floor }
    requires low { floor.spent ≤ 2 ^ 63 }
    ensures { IsBestOf begin.entry.problem choices.now begin.entry.run begin.entry.start result }
{
    let Begin { problem, start, .. } = begin;
    let most = u64::from(problem.columns).saturating_sub(problem.closing);
    let longest = longest_line(problem, start, reach);
    let mut last = longest.last;
    let mut joined = longest.joined;
    let mut best = choose(begin, choices, last + 1, longest.wide);
    while start < last {
        last -= 1;
        let stretch = &problem.stretches[last];
        let reached = joined - widened(stretch.joint);
        if is_enough(best.cost, floor, most.saturating_sub(reached)) {
            return best;
        }
        let wide = reached + widened(stretch.closing);
        joined = reached - widened(stretch.width);
        if may_stand(problem.columns, problem.plain, start, last, wide) {
            let other = choose(begin, choices, last + 1, wide);
            if other.cost.is_less(best.cost) {
                best = other;
            }
        }
    }
    best
}

// Returns the longest run that is distinguished.
#[inline(always)]
fn longest_run(ladder: Option<u8>) -> u8
    ensures { result + 1 ≡ runs ladder }
{
    match ladder {
        Some(most) => most,
        None => 0,
    }
}

// Returns the longest run of hyphens after which a line is known to be the best, where it is so after a run.
//
// A line that ends in no hyphen is so after all longer runs. One that ends in a hyphen is so, as long as the best line
// after it stays the same, and as neither is over the ladder.
#[inline(always)]
fn last_run(begin: Begin, choices: &Choices, best: Choice) -> u8
    requires best { AreBestOf begin.problem choices.now begin.start begin.run }
    requires made { IsMadeOf begin.problem choices.now begin.run begin.start best }
    ensures from { begin.entry.run ≤ result }
    ensures known { result < runs begin.entry.problem.ladder }
    ensures made { (r : ℕ) → begin.entry.run ≤ r → r ≤ result
        → IsMadeOf begin.entry.problem choices.now r begin.entry.start best }
{
    let Begin { problem, run, .. } = begin;
    let longest = longest_run(problem.ladder);
    if run == usize::from(longest) || hyphens_to(problem.stretches, 0, best.end) == 0 {
        return longest;
    }
    kept_at(choices, run + 1, best.end).last_run - 1
}

// Keeps the line that is best to begin at a place after no hyphens. Returns the shortest run after which it is not
// known to be the best.
#[inline(always)]
fn put_first(problem: Problem, choices: &mut Choices, start: usize, best: Choice) -> usize
    requires start { start < length problem.stretches.now }
    requires best { AreBestOf problem choices.old start 0 }
    requires line { IsBestOf problem choices.old 0 start best }
    ensures known { result ≤ runs problem.entry.ladder }
    ensures best { AreBestOf problem.entry choices.new start result }
    ensures shorter { result < runs problem.entry.ladder → IsOpen choices.new result start }
    ensures some { 1 ≤ result }
{
    let begin = Begin {
        problem,
        start,
        run: 0,
    };
    let last_run = last_run(begin, choices, best);
    begin_others(choices, runs(problem.ladder), start);
    let kept = Kept {
        cost: best.cost,
        end: best.end as u32,
        last_run,
    };
    keep_first(choices, start, kept);
    usize::from(last_run) + 1
}

// Keeps the line that is best to begin at a place after a run of hyphens, where those after all shorter ones are kept.
// Returns the next longer run after which it is not known to be the best.
#[inline(always)]
fn put_next(begin: Begin, choices: &mut Choices, best: Choice) -> Result<usize, AllocError>
    requires best { AreBestOf begin.problem choices.old begin.start begin.run }
    requires shorter { IsOpen choices.old begin.run begin.start }
    requires line { IsBestOf begin.problem choices.old begin.run begin.start best }
    ensures known { IfOk result (λ next. next ≤ runs begin.entry.problem.ladder) }
    ensures best { IfOk result (λ next. AreBestOf begin.entry.problem choices.new begin.entry.start next) }
    ensures shorter { IfOk result (λ next. IsOpen choices.new next begin.entry.start) }
    ensures further { IfOk result (λ next. begin.entry.run < next) }
{
    let last_run = last_run(begin, choices, best);
    choices.others.push(Kept {
        cost: best.cost,
        end: best.end as u32,
        last_run,
    })?;
    Ok(usize::from(last_run) + 1)
}

// Puts in the lines that are best to begin at a place, after each run of hyphens from one on that is not empty.
//
// It is never inlined. `best_lines` would else be too long to be inlined itself, and so be compiled only once for all
// paragraphs. Those without a ladder would then take twice as many instructions.
#[inline(never)]
fn put_longer(
    begin: Begin,
    floors: &[Cost],
    choices: &mut Choices,
    reach: Reach,
) -> Result<(), AllocError>
    requires some { 1 ≤ begin.run }
    requires best { AreBestOf begin.problem choices.old begin.start begin.run }
    requires shorter { IsOpen choices.old begin.run begin.start }
    requires reach { IsReach begin.problem.stretches.now begin.problem.columns begin.start reach }
    requires floors { AreFloorsOf begin.problem (begin.start + 1) (reach.last + 1) floors.now }
    ensures { IfOk result (λ done. AreBestFrom begin.entry.problem choices.new begin.entry.start) }
{
    let Begin { problem, start, .. } = begin;
    let mut run = begin.run;
    while run < runs(problem.ladder) {
        let floor = floor_after(floors, run);
        let begin = Begin {
            problem,
            start,
            run,
        };
        let best = best_line(begin, floor, choices, reach);
        run = put_next(begin, choices, best)?;
    }
    Ok(())
}

// Puts in the lines that are best to begin at a place, after each run of hyphens. The first floor is that after none.
#[inline(always)]
fn put_best_lines(
    problem: Problem,
    first: Cost,
    floors: &[Cost],
    choices: &mut Choices,
    start: usize,
    reach: Reach,
) -> Result<(), AllocError>
    requires start { start < length problem.stretches.now }
    requires best { AreBestOf problem choices.old start 0 }
    requires reach { IsReach problem.stretches.now problem.columns start reach }
    requires first { IsFloorOf problem 0 (start + 1) (reach.last + 1) first }
    requires first_low { first.spent ≤ 2 ^ 63 }
    requires floors { AreFloorsOf problem (start + 1) (reach.last + 1) floors.now }
    ensures { IfOk result (λ done. AreBestFrom problem.entry choices.new start) }
{
    let begin = Begin {
        problem,
        start,
        run: 0,
    };
    let best = best_line(begin, first, choices, reach);
    let run = put_first(problem, choices, start, best);
    if run < runs(problem.ladder) {
        let begin = Begin {
            problem,
            start,
            run,
        };
        put_longer(begin, floors, choices, reach)?;
    }
    Ok(())
}

// Returns for how many of some places it is kept where the lines after longer runs begin.
#[inline(always)]
fn begin_count(ladder: Option<u8>, places: usize) -> usize
    ensures { 1 < runs ladder → result ≡ places }
{
    if 1 < runs(ladder) { places } else { 0 }
}

// Returns for how many of some places it is kept which faults lines have.
#[inline(always)]
fn fault_count(plain: bool, places: usize) -> usize
    ensures { plain ≡ false → result ≡ places }
{
    if plain { 0 } else { places }
}

// Returns a table for lines in which only that at the end is kept.
#[inline(always)]
fn no_lines(alloc: Global, problem: Problem) -> Result<Choices, AllocError>
    ensures { IfOk result (λ choices. AreBestFrom problem.entry choices (length problem.entry.stretches.now)) }
{
    let many = problem.stretches.len() + 1;
    let none = First {
        spent: 0,
        end: problem.stretches.len() as u32,
        last_run: longest_run(problem.ladder),
    };
    let begins = begin_count(problem.ladder, many);
    let faults = fault_count(problem.plain, many);
    Ok(Choices {
        firsts: vec![in alloc; none; many]?,
        faults: vec![in alloc; Faults::NONE; faults]?,
        others: Vec::new(alloc),
        begins: vec![in alloc; 0; begins]?,
    })
}

// Returns the best line to begin at each place, after each run of hyphens.
#[inline(always)]
fn best_lines(alloc: Global, problem: Problem) -> Result<Choices, AllocError>
    ensures { IfOk result (λ choices. AreBestFrom problem.entry choices 0) }
{
    let count = problem.stretches.len();
    let mut choices = no_lines(alloc, problem)?;
    let mut reach = last_reach(problem.stretches);
    let mut first = Cost::NONE;
    let mut floors = vec![in alloc; Cost::NONE; runs(problem.ladder) - 1]?;
    let mut renewed = count;
    for start in (0..count).rev() {
        put_best_lines(problem, first, &floors, &mut choices, start, reach)?;
        let span = Span {
            start,
            last: reach.last + 1,
            renewed: reach.last < renewed,
        };
        first = next_floor(problem, &choices, 0, span, first);
        next_floors(problem, &choices, span, &mut floors);
        renewed = renewed_at(span, renewed);
        reach = reach_before(problem, start, reach);
    }
    Ok(choices)
}

// Returns the best line to begin at each place, after each run of hyphens.
//
// Most often there is no ladder, and no single stretch is too wide for a line. Then no line has excess or is over the
// ladder. The code is compiled once for these paragraphs, once for others without a ladder, and once for those with
// one.
fn best_lines_for(
    alloc: Global,
    paragraph: MeasuredParagraph,
    ladder: Option<u8>,
) -> Result<Choices, AllocError>
    ensures { IfOk result (λ choices. AreBestWith paragraph.entry ladder choices) }
{
    let MeasuredParagraph {
        stretches,
        columns,
        last_columns,
    } = paragraph;
    let widest = widest_of(stretches);
    let closing = widened(widest.closing);
    match ladder {
        None => {
            if each_fits(widest, columns) {
                let problem = Problem {
                    stretches,
                    columns,
                    last_columns,
                    ladder: None,
                    plain: true,
                    closing,
                };
                best_lines(alloc, problem)
            } else {
                let problem = Problem {
                    stretches,
                    columns,
                    last_columns,
                    ladder: None,
                    plain: false,
                    closing,
                };
                best_lines(alloc, problem)
            }
        }
        Some(_) => {
            let problem = Problem {
                stretches,
                columns,
                last_columns,
                ladder,
                plain: false,
                closing,
            };
            best_lines(alloc, problem)
        }
    }
}

// Returns the ends of the lines of a paragraph, divided so that it costs the least.
fn best_ends(
    alloc: Global,
    paragraph: MeasuredParagraph,
    ladder: Option<u8>,
) -> Result<Vec<usize>, AllocError>
    ensures divides { IfOk result (λ ends. Divides paragraph.entry.stretches.now paragraph.entry.columns 0 ends.items) }
    ensures least { IfOk result (λ ends. CostsLeastWith paragraph.entry ladder ends.items) }
    ensures fits { IfOk result (λ ends. FitsIfAny paragraph.entry.stretches.now paragraph.entry.columns ends.items) }
    ensures ladder { IfOk result (λ ends. KeepsLadderWith paragraph.entry ladder ends.items) }
{
    let choices = best_lines_for(alloc, paragraph, ladder)?;
    let stretches = paragraph.stretches;
    let mut ends = Vec::with_capacity(alloc, 8)?;
    let mut start = 0;
    let mut run = 0;
    while start < stretches.len() {
        start = choice_at(&choices, run, start).end;
        run = run_of(ladder, hyphens_to(stretches, run, start));
        ends.push(start)?;
    }
    Ok(ends)
}

/// Returns the ends of the lines of a paragraph, divided so that it costs the least.
///
/// An end is the number of stretches before it. Each line has at most `columns` columns, or holds one stretch. No other
/// division of this kind has less excess. None with the same excess has fewer lines over the ladder: lines at whose
/// ends more hyphens are in a row than `ladder`. None that is the same in both spends less. Where several cost the
/// least, it is not said which one is returned. The last line is short of columns only where it has fewer than
/// `last_columns`.
///
/// Where the paragraph can be divided into lines that fit, each line fits. Where these can end in at most `ladder`
/// hyphens in a row, they do. The only error is that memory was refused.
pub fn even_ends(
    alloc: Global,
    stretches: &[Stretch],
    columns: u16,
    last_columns: u16,
    ladder: Option<u8>,
) -> Result<Vec<usize>, AllocError>
    requires count { length stretches.now < 2 ^ 30 }
    ensures divides { IfOk result (λ ends. Divides stretches.now columns 0 ends.items) }
    ensures least { IfOk result (λ ends. CostsLeast stretches.now columns last_columns ladder ends.items) }
    ensures fits { IfOk result (λ ends. FitsIfAny stretches.now columns ends.items) }
    ensures ladder { IfOk result (λ ends. KeepsLadderIfAny stretches.now columns ladder ends.items) }
{
    let paragraph = MeasuredParagraph {
        stretches,
        columns,
        last_columns,
    };
    let ends = best_ends(alloc, paragraph, None)?;
    let Some(most) = ladder else {
        return Ok(ends);
    };
    // Most often these keep to the ladder. Then no division that does costs less.
    if keeps_ladder(stretches, most, &ends) {
        return Ok(ends);
    }
    best_ends(alloc, paragraph, ladder)
}
