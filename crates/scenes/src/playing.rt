//! Scenes of worlds as they happen.

ghost use Rattle.std.specs.Bool.{Decides};
ghost use Rattle.nfs_schedule.specs.Events.{HasWorker};

use crate::fault::Fault;
use crate::messages::words_in;
use crate::posts::given_post;
use crate::server::{MOST_AGAIN, exports, host_named, new_world};
use crate::steps::{Counts, Difference, Kind, Move, Step, Wanted};
use crate::world::{HOST, WorldScene};
use bytes::Bytes;
use nfs_engine::{Incoming, Received};
use nfs_machine::Moment;
use nfs_schedule::{Answer, Event, World, drive, is_at_rest};
use std::alloc::{AllocError, Global};

/// As many turns as bring a worker to the end of any call.
const TURNS: usize = 200;

/// The moment at which each record comes in.
const MOMENT: Moment = Moment {
    seconds: 1000,
    nanoseconds: 0,
};

impl<'a> WorldScene<'a> {
    /// Whether it goes so in new worlds. Tells where it does not.
    pub fn play<R: Print>(&self, rt: &R) -> Result<bool, Fault> {
        if self.is_stopped {
            self.is_followed_stopped(rt)
        } else {
            self.is_followed(rt, &self.steps)
        }
    }

    /// Whether it goes so whichever worker is stopped after however many of the steps behind the opening, where the
    /// other one goes on to its end: then both rest, and what is asked then is answered.
    fn is_followed_stopped<R: Print>(&self, rt: &R) -> Result<bool, Fault> {
        for count in self.opening..=self.stoppable() {
            for (stopped, other) in [(1, 2), (2, 1)] {
                let steps = self.steps_to_stop(count, stopped, other)?;
                let is_followed = self.is_followed(rt, &steps);
                drop(steps);
                if !is_followed? {
                    println!(rt; "  where worker {stopped} is stopped behind {count} steps")?;
                    return Ok(false);
                }
            }
        }
        Ok(true)
    }

    /// So many steps, the stop of a worker, the other one to its end, and what is asked then.
    fn steps_to_stop(
        &self,
        count: usize,
        stopped: usize,
        other: usize,
    ) -> Result<Vec<Step<'a>>, AllocError> {
        let line = 0;
        let mut steps = Vec::new(self.alloc);
        for step in self.steps.iter().take(count) {
            steps.push(*step)?;
        }
        steps.push(Step {
            line,
            what: Move::Stop(stopped),
        })?;
        for _turn in 0..TURNS {
            steps.push(Step {
                line,
                what: Move::Turn(other),
            })?;
        }
        steps.push(Step {
            line,
            what: Move::Rest,
        })?;
        for step in self.steps.iter().skip(self.stoppable()) {
            steps.push(*step)?;
        }
        Ok(steps)
    }

    /// Whether a new world goes so by these steps. Tells where it does not.
    fn is_followed<R: Print>(&self, rt: &R, steps: &[Step<'a>]) -> Result<bool, Fault> {
        let mut world = new_world(self.alloc, self.options)?;
        let mut answers = Vec::new(self.alloc);
        let made = self.make_all(&mut world, &mut answers, steps);
        let posts = self.posts_given(&world);
        drop(world.end());
        let told = self.told(rt, made, &answers, posts);
        drop(answers);
        told
    }

    /// Whether steps that are made, and what was answered, are as they must be. Tells where they are not.
    fn told<R: Print>(
        &self,
        rt: &R,
        made: Result<Option<Difference>, Fault>,
        answers: &[Answer],
        posts: Result<Vec<Vec<u8>>, Fault>,
    ) -> Result<bool, Fault> {
        let posts = posts?;
        let first = made?.or(self.difference(answers));
        let Some(difference) = first.or(self.posts_difference(&posts)) else {
            return Ok(true);
        };
        if let Difference::Post(place) = difference {
            return self.tell_post(rt, place, &posts);
        }
        if self.is_refused_early(difference, answers) {
            return Err(Fault::Memory);
        }
        self.tell(rt, difference, answers)?;
        Ok(false)
    }

    /// Whether a call was refused in the opening.
    fn is_refused_early(&self, difference: Difference, answers: &[Answer]) -> bool {
        let Difference::Counts { line, .. } = difference else {
            return false;
        };
        let is_early = self
            .steps
            .iter()
            .take(self.opening)
            .any(|step| step.line == line);
        is_early
            && answers
                .iter()
                .any(|answer| Kind::of(answer) == Kind::Refused)
    }

    /// Makes these steps, up to the first at which something is other than it has to be.
    fn make_all(
        &self,
        world: &mut World,
        answers: &mut Vec<Answer>,
        steps: &[Step<'a>],
    ) -> Result<Option<Difference>, Fault> {
        for step in steps {
            let Step { line, what } = *step;
            match what {
                Move::Counts(wanted) => {
                    if let Some(counts) = other_counts(world, wanted) {
                        return Ok(Some(Difference::Counts { line, counts }));
                    }
                }
                Move::Settle => self.settle(world, answers)?,
                Move::Rest => {
                    if let Some(counts) = other_counts(world, rest_behind(answers)) {
                        return Ok(Some(Difference::Counts { line, counts }));
                    }
                }
                what => self.make_at_last(world, answers, what)?,
            }
        }
        Ok(None)
    }

    /// Makes one move, at a later try where the first is refused and so was not begun.
    fn make_at_last(
        &self,
        world: &mut World,
        answers: &mut Vec<Answer>,
        what: Move<'a>,
    ) -> Result<(), Fault> {
        for _again in 0..MOST_AGAIN {
            match self.make(world, answers, what) {
                Err(Fault::Memory) => {}
                made => return made,
            }
        }
        self.make(world, answers, what)
    }

    /// Makes one move.
    fn make(
        &self,
        world: &mut World,
        answers: &mut Vec<Answer>,
        what: Move<'a>,
    ) -> Result<(), Fault> {
        match what {
            Move::Arrive { from, record } => {
                let event = self.arrival(from, record)?;
                happen(self.alloc, world, answers, event)
            }
            Move::Turn(worker) => happen(self.alloc, world, answers, Event::Turn(worker)),
            Move::Stop(worker) => happen(self.alloc, world, answers, Event::Stop(worker)),
            Move::TakeMessage => happen(self.alloc, world, answers, Event::TakeMessage),
            Move::NewEra => happen(self.alloc, world, answers, Event::NewEra),
            _ => Ok(()),
        }
    }

    /// What has this number comes in: a record, from this host, or exports.
    fn arrival(&self, from: &str, number: usize) -> Result<Event, Fault> {
        match self.list(number) {
            Some(list) => Ok(Event::Replace(exports(self.alloc, list)?, moment_of(number))),
            None => Ok(Event::Arrive(received(self.alloc, from, self.record(number))?)),
        }
    }

    /// Each record that was refused, and not executed later, comes again, and worker 1 goes on to its end.
    fn settle(&self, world: &mut World, answers: &mut Vec<Answer>) -> Result<(), Fault> {
        for record in 1..=self.records.len() {
            if !self.is_refused(answers, record) {
                continue;
            }
            let from = HOST;
            self.make_at_last(world, answers, Move::Arrive { from, record })?;
            for _turn in 0..TURNS {
                self.make_at_last(world, answers, Move::Turn(1))?;
            }
        }
        Ok(())
    }

    /// Whether a record's last answer is a refusal.
    fn is_refused(&self, answers: &[Answer], record: usize) -> bool {
        let mut is_refused = false;
        for answer in answers {
            if self.is_arrival(answer.received(), record) {
                is_refused = Kind::of(answer) == Kind::Refused;
            }
        }
        is_refused
    }

    /// Whether this has this number.
    fn is_arrival(&self, incoming: &Incoming, number: usize) -> bool {
        match incoming {
            Incoming::Record(received) => received.message.as_slice() == self.record(number),
            Incoming::Exports(_, moment) => {
                self.list(number).is_some() && *moment == moment_of(number)
            }
        }
    }

    /// The messages that were taken in a world.
    fn posts_given(&self, world: &World) -> Result<Vec<Vec<u8>>, Fault> {
        let mut posts = Vec::new(self.alloc);
        for posted in world.taken() {
            posts.push(given_post(self.alloc, posted)?)?;
        }
        Ok(posts)
    }

    /// The first message that is other than it has to be.
    fn posts_difference(&self, posts: &[Vec<u8>]) -> Option<Difference> {
        for (place, post) in posts.iter().enumerate() {
            match self.posts.get(place) {
                Some(wanted) if wanted.bytes == *post => {}
                _ => return Some(Difference::Post(place)),
            }
        }
        if posts.len() < self.posts.len() {
            return Some(Difference::Post(posts.len()));
        }
        None
    }

    /// Tells which message is other than it has to be.
    fn tell_post<R: Print>(&self, rt: &R, place: usize, posts: &[Vec<u8>]) -> Result<bool, Fault> {
        let title = self.title;
        match self.posts.get(place) {
            Some(wanted) => {
                let line = wanted.line;
                println!(rt; "line {line}: {title}")?;
                let words = words_in(self.alloc, &wanted.bytes)?;
                println!(rt; "  must be {words}")?;
            }
            None => println!(rt; "{title}: there are more messages")?,
        }
        if let Some(post) = posts.get(place) {
            let words = words_in(self.alloc, post)?;
            println!(rt; "  is      {words}")?;
        }
        Ok(false)
    }

    /// The first answer that is other than it has to be, where it goes to none of the ends.
    fn difference(&self, answers: &[Answer]) -> Option<Difference> {
        let last = self.difference_at(answers, self.end)?;
        for end in 1..self.end {
            self.difference_at(answers, end)?;
        }
        Some(last)
    }

    /// The first answer that is other than it has to be at this end. Calls that were refused are not looked at: they
    /// have to be executed all the same.
    fn difference_at(&self, answers: &[Answer], end: u64) -> Option<Difference> {
        let mut answers = answers
            .iter()
            .enumerate()
            .filter(|(_, answer)| Kind::of(answer) != Kind::Refused);
        for (wanted, want) in self.wanted.iter().enumerate() {
            if want.end != 0 && want.end != end {
                continue;
            }
            match answers.next() {
                Some((_, answer)) if self.is_answered(want, answer) => {}
                Some((answer, _)) => return Some(Difference::Answer { wanted, answer }),
                None => {
                    return Some(Difference::Answer {
                        wanted,
                        answer: usize::MAX,
                    });
                }
            }
        }
        let (answer, _) = answers.next()?;
        Some(Difference::More(answer))
    }

    /// Whether an answer is the one that is wanted.
    fn is_answered(&self, wanted: &Wanted<'a>, answer: &Answer) -> bool {
        came_from(answer.received(), wanted.from)
            && self.is_arrival(answer.received(), wanted.record)
            && Kind::of(answer) == wanted.kind
            && answer.bytes() == wanted.bytes.as_slice()
    }

    /// Tells where a world goes another way.
    fn tell<R: Print>(
        &self,
        rt: &R,
        difference: Difference,
        answers: &[Answer],
    ) -> Result<(), Fault> {
        let title = self.title;
        match difference {
            Difference::Counts { line, counts } => {
                println!(rt; "line {line}: {title}")?;
                self.tell_counts(rt, counts)
            }
            Difference::Answer { wanted, answer } => {
                if let Some(wanted) = self.wanted.get(wanted) {
                    let line = wanted.line;
                    println!(rt; "line {line}: {title}")?;
                    self.tell_answer(rt, "must be", wanted.kind, &wanted.bytes)?;
                }
                self.tell_given(rt, answers.get(answer))
            }
            Difference::More(answer) => {
                println!(rt; "{title}: there is more")?;
                self.tell_given(rt, answers.get(answer))
            }
            Difference::Post(_) => Ok(()),
        }
    }

    fn tell_counts<R: Print>(&self, rt: &R, counts: Counts) -> Result<(), Fault> {
        let Counts {
            living,
            locked,
            records,
            objects,
        } = counts;
        let (records, objects) = (records.unwrap_or(0), objects.unwrap_or(0));
        println!(rt;
            "  is      {living} calls, {locked} addresses, {records} records, {objects} objects"
        )?;
        Ok(())
    }

    fn tell_given<R: Print>(&self, rt: &R, answer: Option<&Answer>) -> Result<(), Fault> {
        match answer {
            Some(answer) => self.tell_answer(rt, "is     ", Kind::of(answer), answer.bytes()),
            None => Ok(println!(rt; "  is      no answer")?),
        }
    }

    fn tell_answer<R: Print>(
        &self,
        rt: &R,
        what: &str,
        kind: Kind,
        bytes: &[u8],
    ) -> Result<(), Fault> {
        let (word, number) = (kind.word(), kind.number());
        let words = words_in(self.alloc, bytes)?;
        println!(rt; "  {what} {word} {number}{words}")?;
        Ok(())
    }
}

/// What comes in: these bytes from this host.
fn received(alloc: Global, from: &str, bytes: &[u8]) -> Result<Received, Fault> {
    let host = host_named(alloc, from)?;
    match Bytes::copy_from_slice(alloc, bytes) {
        Ok(message) => Ok(Received {
            host,
            message,
            moment: MOMENT,
        }),
        Err(_) => {
            drop(host);
            Err(Fault::Memory)
        }
    }
}

/// Whether it came from this host, or from none.
fn came_from(incoming: &Incoming, host: &str) -> bool {
    match incoming {
        Incoming::Record(received) => received.host.text().as_slice() == host.as_bytes(),
        Incoming::Exports(..) => true,
    }
}

/// The moment at which exports with this number come in: so many seconds after records do.
fn moment_of(number: usize) -> Moment {
    Moment {
        seconds: 1000u32.wrapping_add((number & 0xffff) as u32),
        nanoseconds: 0,
    }
}

/// Lets this happen. An error changes nothing.
fn happen(
    alloc: Global,
    world: &mut World,
    answers: &mut Vec<Answer>,
    event: Event,
) -> Result<(), Fault> {
    if !has_worker(&event, world.workers()) {
        drop(event);
        return Err(Fault::Line("no such worker"));
    }
    let events = [event];
    match drive(alloc, world, &events, answers) {
        Ok(()) => Ok(()),
        Err((_, error)) => Err(Fault::from(error)),
    }
}

/// Whether the worker that an event names is one of so many.
fn has_worker(event: &Event, workers: usize) -> bool
    ensures { Decides result (HasWorker workers event.now) }
{
    match event {
        Event::Turn(worker) | Event::Stop(worker) => 0 < *worker && *worker <= workers,
        _ => true,
    }
}

/// The counts of a world that rests behind these answers.
fn rest_behind(answers: &[Answer]) -> Counts {
    let executed = answers
        .iter()
        .filter(|answer| matches!(Kind::of(answer), Kind::Executed(_)))
        .count();
    Counts {
        living: 0,
        locked: 0,
        records: Some(executed as u64),
        objects: None,
    }
}

/// The counts, where they are others than these, or where they and `is_at_rest` differ.
fn other_counts(world: &World, wanted: Counts) -> Option<Counts> {
    let engine = world.engine();
    let (living, locked) = (engine.living(), engine.locked());
    let (records, _) = engine.era_size();
    let is_told = is_at_rest(engine) == (living == 0 && locked == 0);
    let objects = engine.objects();
    let has_records = wanted.records.is_none_or(|wanted| wanted == records);
    let has_objects = wanted.objects.is_none_or(|wanted| wanted == objects);
    let has_all = has_records && has_objects;
    if is_told && has_all && living == wanted.living && locked == wanted.locked {
        return None;
    }
    Some(Counts {
        living,
        locked,
        records: Some(records),
        objects: Some(objects),
    })
}
