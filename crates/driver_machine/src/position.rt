//! `Position`: where a frame stands in its function's body.
ghost use Rattle.std.specs.Prelude.{◌≡◌, ◌≤◌, ◌<◌, ◌+◌, drop, length, option_copied, slice_get, IsSome};
ghost use Rattle.checked_tree.specs.Step as step;
ghost use Rattle.checked_tree.specs.declared.statements.CheckedStmt.{out-CheckedStmt};
ghost use Rattle.driver_machine.specs.Paths as spec;
ghost use Rattle.safe_code.specs.Runnable.{depth};
ghost use Rattle.driver_machine.specs.Paths.{IsPath, IsReady, IsSettled, Stands, list_at, picked_from, todo_at};

use arrayvec::ArrayVec;
use checked_tree::CheckedStmt;
use sd_base::limits::NESTING;

/// A part of a statement that was entered: the statement's place in its list, and whether the part is that of a test that held.
#[derive(Clone, Copy, PartialEq, Eq, Debug, Default)]
pub struct Place {
    pub at: usize,
    pub holds: bool,
}

/// The parts that were entered, the outermost first: at most 64, as a driver text has no more brackets open at once.
pub type Path = ArrayVec<Place, NESTING>;

/// Where a frame stands in its function's body: the parts that it entered, and a place in the list of the innermost.
#[derive(Drop)]
pub struct Position {
    pub path: Path,
    pub at: usize,
}

/// The part of a statement that a test picks; of a `while` the body, where it holds.
fn part_of(statement: &CheckedStmt, picked: bool) -> &[CheckedStmt]
    ensures { result.now ≡ step.part_of (out-CheckedStmt statement.now) picked }
{
    match statement {
        CheckedStmt::If {
            line: _,
            test: _,
            holds,
            fails,
        } => {
            if picked {
                holds.as_slice()
            } else {
                fails.as_slice()
            }
        }
        CheckedStmt::While {
            line: _,
            test: _,
            body,
        } => { if picked { body.as_slice() } else { &[] } }
        _ => &[],
    }
}

/// Whether a statement stands again behind the part that a test picks: a `while` whose test held.
fn repeats(statement: &CheckedStmt, picked: bool) -> bool
    ensures { result ≡ spec.repeats (out-CheckedStmt statement.now) picked }
{
    match statement {
        CheckedStmt::While {
            line: _,
            test: _,
            body: _,
        } => picked,
        _ => false,
    }
}

/// The part at a place of a list, no statements where there is none.
fn part_at(list: &[CheckedStmt], place: Place) -> &[CheckedStmt]
    ensures { result.now ≡ spec.part_at (slice_get list.now place.at) place.holds }
{
    match list.get(place.at) {
        Some(statement) => part_of(statement, place.holds),
        None => &[],
    }
}

/// The list that a path leads into.
fn list_at<'a>(body: &'a [CheckedStmt], path: &[Place]) -> &'a [CheckedStmt]
    ensures { result.now ≡ list_at body.now path.now }
{
    let mut list = body;
    for place in path {
        list = part_at(list, *place);
    }
    list
}

/// The place behind a part: that of its statement, if it stands there again, or the next one.
fn place_behind(list: &[CheckedStmt], place: Place) -> usize
    requires { place.at < length list.now }
    ensures { result ≡ spec.place_behind (slice_get list.now place.at) place.holds place.at }
{
    match list.get(place.at) {
        Some(statement) => {
            if repeats(statement, place.holds) {
                place.at
            } else {
                place.at + 1
            }
        }
        None => place.at + 1,
    }
}

/// The place behind one of a list.
fn following(list: &[CheckedStmt], at: usize) -> usize
    requires { at < length list.now }
    ensures { result ≡ at + 1 }
{
    at + 1
}

/// The statement at a place of a list.
fn statement_at(list: &[CheckedStmt], at: usize) -> Option<&CheckedStmt>
    ensures value { option_copied result ≡ slice_get list.now at }
    ensures within { IsSome result → at < length list.now }
{
    list.get(at)
}

/// Leaves the parts that have come to their end.
fn settle(body: &[CheckedStmt], path: &mut Path, at: usize) -> usize
    requires { IsPath body.now path.old.items }
    ensures todo { todo_at body.now path.new.items result ≡ todo_at body.now path.old.items at }
    ensures path { IsPath body.now path.new.items }
    ensures settled { IsSettled body.now path.new.items result }
{
    if at < list_at(body, path.as_slice()).len() {
        return at;
    }
    match path.pop() {
        None => at,
        Some(place) => {
            let next = place_behind(list_at(body, path.as_slice()), place);
            settle(body, path, next)
        }
    }
}

impl Position {
    /// The first place of a body.
    #[tactic(auto, using(crate::proofs::Turns::start_todo))]
    pub fn start(body: &[CheckedStmt]) -> Position
        ensures todo { todo_at body.now result.path.items result.at ≡ body.now }
        ensures ready { IsReady body.now result.path.items result.at }
    {
        Position {
            path: ArrayVec::new(),
            at: 0,
        }
    }

    /// Goes back to the first place of a body.
    #[tactic(auto, using(crate::proofs::Turns::start_todo))]
    pub fn restart(&mut self, body: &[CheckedStmt])
        ensures todo { todo_at body.now self.new.path.items self.new.at ≡ body.now }
        ensures ready { IsReady body.now self.new.path.items self.new.at }
    {
        self.path.clear();
        self.at = 0;
    }

    /// The statement at this place, None where all is done.
    pub fn current<'a>(&self, body: &'a [CheckedStmt]) -> Option<&'a CheckedStmt>
        requires { IsReady body.now self.now.path.items self.now.at }
        ensures first { option_copied result ≡ slice_get (todo_at body.now self.now.path.items self.now.at) 0 }
        ensures stands { IsSome result → Stands body.now self.now.path.items self.now.at }
    {
        statement_at(list_at(body, self.path.as_slice()), self.at)
    }

    /// Control goes on behind the statement at this place.
    pub fn go_on(&mut self, body: &[CheckedStmt])
        requires ready { IsReady body.now self.old.path.items self.old.at }
        requires stands { Stands body.now self.old.path.items self.old.at }
        ensures todo { todo_at body.now self.new.path.items self.new.at ≡ drop 1 (todo_at body.now self.old.path.items self.old.at) }
        ensures ready { IsReady body.now self.new.path.items self.new.at }
    {
        let next = following(list_at(body, self.path.as_slice()), self.at);
        self.at = settle(body, &mut self.path, next);
    }

    /// Control turns into the part that a test picks of the statement at this place; behind the part a `while` whose test held stands again.
    pub fn turn_into(&mut self, body: &[CheckedStmt], holds: bool)
        requires ready { IsReady body.now self.old.path.items self.old.at }
        requires stands { Stands body.now self.old.path.items self.old.at }
        requires nesting { depth body.now ≤ 64 }
        ensures todo { todo_at body.now self.new.path.items self.new.at ≡ picked_from (todo_at body.now self.old.path.items self.old.at) holds }
        ensures ready { IsReady body.now self.new.path.items self.new.at }
    {
        let place = Place { at: self.at, holds };
        let list = list_at(body, self.path.as_slice());
        if part_at(list, place).is_empty() {
            let next = place_behind(list, place);
            self.at = settle(body, &mut self.path, next);
        } else {
            self.path.push(place);
            self.at = 0;
        }
    }
}
