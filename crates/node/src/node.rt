// The node, whose type says that its state was reached by a history of its table.
ghost use Rattle.std.specs.Prelude.{◌≡◌, ◌==◌, ℕ, ◌<◌, ◌≤◌, ◌≢◌, length, not, slice_index_or, Some, None, Ok, Err};
ghost use Rattle.std.specs.List.{filter};
ghost use Rattle.model.specs.declared.refusal.Refusal.TheVariants.{PromiseTooLow};
ghost use Rattle.model.specs.Windows.{Accepted};
ghost use Rattle.model.specs.Energy.{Harvest, LawfulLevel};
ghost use Rattle.model.specs.Slots.{candidate, turn_of, slot_step, slot_answer};
ghost use Rattle.model.specs.Releases.{clock_end, release_refusal, release_step};
ghost use Rattle.model.specs.Orders.{slots_refusal, Run, Slotted, Obeyed, Driven, report_of};
ghost use Rattle.model.specs.Amounts.{RunBy, SlottedBy, ObeyedBy, DrivenBy};
ghost use Rattle.model.specs.Histories.{History, fresh};
ghost use Rattle.harvest.specs.Takes.{Taking};
ghost use Rattle.table.specs.Tables.{setup_of, task_list};
ghost use Rattle.node.specs.Ahead.{LooksAhead};
ghost use Rattle.node.specs.Outcomes.{refusal_said};
ghost use Rattle.node.specs.Starts.{IsNotStarted};
ghost use Rattle.node.specs.Turns.{candidate_said, turn_said};
ghost use Rattle.node.specs.Marks.{refusals, Unmarked, no_order};
ghost use Rattle.node.specs.Reports.{ResponsesWithin};

use crate::ahead::Ahead;
use crate::release::{CLOCK_END, is_early, is_within};
use crate::scan::{candidate, due_clock};
use crate::store::Store;
use crate::turn::{Job, Turn};
use crate::work::work;
use harvest::harvester::Harvester;
use model::order::{Ask, Order, Report};
use model::refusal::Refusal;
use model::slot::SlotAnswer;
use model::state::{Line, State};
use table::table::Table;

#[derive(Debug, Drop, PartialEq, Eq)]
pub struct Node<H> {
    table: Table,
    state: State,
    harvester: H,
    ahead: Ahead,
    ghost reached: { ∥ History (setup_of table) table.rate state ∥₁ },
    ghost looked: { ∥ LooksAhead ahead (task_list table) state.lines ∥₁ },
}

// What a refused start gives back.
#[derive(Debug, Drop, PartialEq, Eq)]
pub struct NotStarted<H> {
    pub refusal: Refusal,
    pub harvester: H,
}

// Why the start was refused, without the harvester.
impl<H: Drop> From<NotStarted<H>> for Refusal {
    ghost from_gives = { λ refused r. r ≡ refused.refusal };

    fn from(refused: NotStarted<H>) -> Refusal {
        refused.refusal
    }
}

// What a call leaves as it was is said by each call, since no type relates a node to what it was before.
impl<H: Harvester> Node<H> {
    // A node at its first clock, or the refusal and the harvester as it was.
    pub fn start(table: Table, level: u64, harvester: H) -> Result<Node<H>, NotStarted<H>>
        ensures { elim result [
          | Err e ↦ IsNotStarted (setup_of table) (H.Harvester.promised harvester) level e.refusal × (e.harvester ≡ harvester)
          | Ok n ↦ (table.rate ≤ H.Harvester.promised harvester) × LawfulLevel (setup_of table) level
              × (n.table ≡ table) × (n.state ≡ fresh level) × (n.harvester ≡ harvester)
        ] }
    {
        if harvester.promise() < table.rate() {
            return Err(NotStarted {
                refusal: Refusal::PromiseTooLow,
                harvester,
            });
        }
        if !(table.floor()..=table.cap()).contains(&level) {
            return Err(NotStarted {
                refusal: Refusal::LevelOutside,
                harvester,
            });
        }
        let state = State {
            clock: 0,
            level,
            released: 0,
            closed: 0,
            finished: 0,
            lines: [Line::Never; 16],
            longest: [None; 16],
        };
        Ok(Node {
            table,
            state,
            harvester,
            ahead: Ahead { first: 0, due: 0 },
        })
    }

    // The table, which no call changes.
    pub fn table(&self) -> &Table
        ensures { result.now ≡ self.now.table }
    {
        &self.table
    }

    // Opens a job of a task, by its number, or says why not.
    pub fn release(&mut self, task: u8, units: u16, draw: u64) -> Result<(), Refusal>
        ensures refusal { refusal_said result ≡
            release_refusal (setup_of self.old.table) self.old.state task units draw }
        ensures state { self.new.state ≡
            release_step (setup_of self.old.table) self.old.state task units draw }
        ensures table { self.new.table ≡ self.old.table }
        ensures harvester { self.new.harvester ≡ self.old.harvester }
    {
        let tasks = self.table.tasks();
        // a test of a range, since `checked_sub` and `get` would leave with the same refusal twice
        let number = usize::from(task);
        if !(1..=tasks.len()).contains(&number) {
            return Err(Refusal::NoSuchTask);
        }
        let index = number - 1;
        if !is_within(&tasks[index], units, draw) {
            return Err(Refusal::OutsideTask);
        }
        if self.state.clock >= CLOCK_END {
            return Err(Refusal::ClockEnd);
        }
        if is_early(self.state.clock, &tasks[index], self.state.lines[index]) {
            return Err(Refusal::TooEarly);
        }
        self.state.lines[index] = Line::Open {
            released: self.state.clock,
            left: units,
            draw,
        };
        self.state.released += 1;
        self.ahead.first = self.ahead.first.min(index);
        self.ahead.due = self
            .ahead
            .due
            .min(due_clock(self.state.clock, &tasks[index]));
        Ok(())
    }

    // Whether a number of slots may be run.
    fn check_slots(&self, count: u32) -> Result<(), Refusal>
        ensures { refusal_said result ≡
            slots_refusal (setup_of self.now.table) (H.Harvester.promised self.now.harvester) self.now.state count }
    {
        if count == 0 {
            return Ok(());
        }
        if self.harvester.promise() < self.table.rate() {
            return Err(Refusal::PromiseTooLow);
        }
        if u64::from(self.state.clock) + u64::from(count) > u64::from(CLOCK_END) {
            return Err(Refusal::ClockEnd);
        }
        Ok(())
    }

    // Why a number of slots is refused, if it is: an Option, since asking cannot fail.
    pub fn slots_refused(&self, count: u32) -> Option<Refusal>
        ensures { result ≡ slots_refusal (setup_of self.now.table) (H.Harvester.promised self.now.harvester)
            self.now.state count }
    {
        self.check_slots(count).err()
    }

    // The most urgent open job, looked for from the first line on that may be open.
    fn most_urgent(&self) -> Option<Job>
        ensures { candidate_said result ≡ candidate 0 (task_list self.now.table) self.now.state.lines }
    {
        let first = self.ahead.first;
        let tasks = self.table.tasks();
        candidate(
            first,
            &tasks[first..],
            &self.state.lines[first..tasks.len()],
        )
    }

    // What the next slot is used for: the most urgent open job runs if the level and what a slot surely brings pay for a unit of its task.
    fn choose(&self, gain: u32) -> Turn
        requires { gain ≡ self.now.table.rate }
        ensures { turn_said result ≡ turn_of (setup_of self.now.table) self.now.state }
    {
        let Some(job) = self.most_urgent() else {
            return Turn::Idle;
        };
        if job.task.draw + self.table.floor() <= self.state.level + u64::from(gain) {
            Turn::Runs { job }
        } else {
            Turn::Waits { job }
        }
    }

    // One slot with what the harvester brings in it.
    fn advance(&mut self, harvest: u32) -> SlotAnswer
        requires harvest { Harvest self.old.table.rate harvest }
        requires clock { self.old.state.clock < clock_end }
        ensures state { self.new.state ≡ slot_step (setup_of self.old.table) self.old.state harvest }
        ensures answer { result ≡ slot_answer (setup_of self.old.table) self.old.state harvest }
        ensures table { self.new.table ≡ self.old.table }
        ensures harvester { self.new.harvester ≡ self.old.harvester }
    {
        let store = Store::new(self.state.level, self.table.floor(), self.table.cap());
        let turn = self.choose(self.table.rate());
        let draw = turn.draw();
        let tasks = self.table.tasks();
        self.ahead.first = turn.first_open(tasks.len());
        let activity = work(turn, &mut self.state);
        self.state.level = store.put(harvest, draw).level();
        self.state.clock += 1;
        let abandoned = self
            .ahead
            .pass_deadlines(self.state.clock, tasks, &mut self.state.lines);
        self.state.closed += u64::from(abandoned);
        SlotAnswer {
            activity,
            harvest,
            draw,
            level: self.state.level,
            abandoned,
        }
    }

    // One slot that is not refused. As a call of its own, an idle slot over a trace takes 95 instructions in place of 48.
    #[inline(always)]
    fn step(&mut self) -> SlotAnswer
        requires { (self.old.table.rate ≤ H.Harvester.promised self.old.harvester) × (self.old.state.clock < clock_end) }
        ensures state { self.new.state ≡
            slot_step (setup_of self.old.table) self.old.state (H.Harvester.coming self.old.harvester) }
        ensures answer { result ≡
            slot_answer (setup_of self.old.table) self.old.state (H.Harvester.coming self.old.harvester) }
        ensures brought { Harvest (H.Harvester.promised self.old.harvester) (H.Harvester.coming self.old.harvester) }
        ensures once { H.Harvester.taken self.old.harvester self.new.harvester }
        ensures table { self.new.table ≡ self.old.table }
        ensures promise { H.Harvester.promised self.new.harvester ≡ H.Harvester.promised self.old.harvester }
    {
        let harvest = self.harvester.take();
        self.advance(harvest)
    }

    // One slot: the most urgent open job runs as soon as the store pays for its next unit.
    pub fn slot(&mut self) -> Result<SlotAnswer, Refusal>
        ensures cases { elim result [
          | Err e ↦
              (Some e ≡ slots_refusal (setup_of self.old.table) (H.Harvester.promised self.old.harvester)
              self.old.state 1)
              × (self.new.state ≡ self.old.state)
              × (self.new.harvester ≡ self.old.harvester)
          | Ok a ↦
              (None ≡ slots_refusal (setup_of self.old.table) (H.Harvester.promised self.old.harvester)
              self.old.state 1)
              × (self.new.state ≡ slot_step (setup_of self.old.table) self.old.state
              (H.Harvester.coming self.old.harvester))
              × (a ≡ slot_answer (setup_of self.old.table) self.old.state
              (H.Harvester.coming self.old.harvester))
              × Harvest (H.Harvester.promised self.old.harvester) (H.Harvester.coming self.old.harvester)
        ] }
        ensures once { elim result [
          | Err e ↦ Unit {0}
          | Ok a ↦ H.Harvester.taken self.old.harvester self.new.harvester
        ] }
        ensures table { self.new.table ≡ self.old.table }
        ensures promise { H.Harvester.promised self.new.harvester ≡ H.Harvester.promised self.old.harvester }
        ensures paid { self.old.table.rate ≤ H.Harvester.promised self.old.harvester → result ≢ Err PromiseTooLow }
    {
        self.check_slots(1)?;
        Ok(self.step())
    }

    // Some slots that are not refused.
    fn run_slots(&mut self, count: u32)
        requires { None ≡ slots_refusal (setup_of self.old.table) (H.Harvester.promised self.old.harvester) self.old.state count }
        ensures run { Run (setup_of self.old.table) (H.Harvester.promised self.old.harvester) count
            self.old.state self.new.state }
        ensures taking { Taking H.Harvester.coming H.Harvester.taken self.old.harvester self.new.harvester
            (λ amounts. (length amounts ≡ count) × RunBy (setup_of self.old.table) (H.Harvester.promised self.old.harvester)
            self.old.state amounts self.new.state) }
        ensures table { self.new.table ≡ self.old.table }
        ensures promise { H.Harvester.promised self.new.harvester ≡ H.Harvester.promised self.old.harvester }
    {
        'each: for _ in 0..count {
            let _ = self.step();
        }
    }

    // One order, done or refused. An order is data that callers keep, so which call it is stays an enum.
    fn obey(&mut self, ask: Ask) -> Result<(), Refusal>
        ensures obeyed { Obeyed (setup_of self.old.table) (H.Harvester.promised self.old.harvester)
            self.old.state ask (refusal_said result) self.new.state }
        ensures taking { Taking H.Harvester.coming H.Harvester.taken self.old.harvester self.new.harvester
            (λ amounts. ObeyedBy (setup_of self.old.table) (H.Harvester.promised self.old.harvester)
            self.old.state ask (refusal_said result) amounts self.new.state) }
        ensures table { self.new.table ≡ self.old.table }
        ensures promise { H.Harvester.promised self.new.harvester ≡ H.Harvester.promised self.old.harvester }
    {
        match ask {
            Ask::Release { task, units, draw } => self.release(task, units, draw),
            Ask::Slots { count } => self.obey_slots(count),
        }
    }

    // Some slots, refused whole or done.
    fn obey_slots(&mut self, count: u32) -> Result<(), Refusal>
        ensures slotted { Slotted (setup_of self.old.table) (H.Harvester.promised self.old.harvester) count
            self.old.state (refusal_said result) self.new.state }
        ensures taking { Taking H.Harvester.coming H.Harvester.taken self.old.harvester self.new.harvester
            (λ amounts. SlottedBy (setup_of self.old.table) (H.Harvester.promised self.old.harvester) count
            self.old.state (refusal_said result) amounts self.new.state) }
        ensures table { self.new.table ≡ self.old.table }
        ensures promise { H.Harvester.promised self.new.harvester ≡ H.Harvester.promised self.old.harvester }
    {
        self.check_slots(count)?;
        self.run_slots(count);
        Ok(())
    }

    // Does each order in turn, marks it, and says how many were refused.
    pub fn drive(&mut self, orders: &mut [Order]) -> usize
        ensures driven { Driven (setup_of self.old.table) (H.Harvester.promised self.old.harvester)
            self.old.state orders.old orders.new self.new.state }
        ensures taking { Taking H.Harvester.coming H.Harvester.taken self.old.harvester self.new.harvester
            (λ amounts. DrivenBy (setup_of self.old.table) (H.Harvester.promised self.old.harvester)
            self.old.state orders.old orders.new amounts self.new.state) }
        ensures asks { (k : ℕ) → (slice_index_or orders.new k no_order).ask ≡ (slice_index_or orders.old k no_order).ask }
        ensures count { result ≡ refusals orders.new }
        ensures table { self.new.table ≡ self.old.table }
        ensures promise { H.Harvester.promised self.new.harvester ≡ H.Harvester.promised self.old.harvester }
        ensures paid { self.old.table.rate ≤ H.Harvester.promised self.old.harvester → Unmarked 9 orders.new }
    {
        'each: for order in orders.iter_mut() {
            // 0, or the fixed number of the refusal
            order.mark = self.obey(order.ask).err().map_or(0, Refusal::number);
        }
        refused(orders)
    }

    // The state so far. Each closed job of an accepted table was finished by its deadline, and within its task's safe bound.
    pub fn report(&self) -> Report
        ensures state { result ≡ report_of self.now.state }
        ensures met { Accepted self.now.table.rate (task_list self.now.table) → result.closed ≡ result.finished }
        ensures within { Accepted self.now.table.rate (task_list self.now.table) →
            ResponsesWithin self.now.table.rate (task_list self.now.table) result }
    {
        Report::from(&self.state)
    }
}

// How many orders are marked as refused.
fn refused(orders: &[Order]) -> usize
    ensures { result ≡ length (filter (λ (o : Order). not (o.mark == 0)) orders.now) }
{
    orders.iter().filter(|order| order.mark != 0).count()
}
