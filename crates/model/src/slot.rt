// What a slot answers.
ghost use Rattle.std.specs.Prelude.{Some};
ghost use Rattle.model.specs.Shown.{progress_shown, activity_shown, answer_shown};

use std::fmt;

// How far a job that ran has come: an enum within an enum by a rule of the project, and its names say more than `Option<u32>`.
#[derive(Clone, Copy, Debug, PartialEq, Eq)]
pub enum Progress {
    GoesOn,
    Finished { response: u32 },
}

// Tasks are told by their numbers, from 1.
#[derive(Clone, Copy, Debug, PartialEq, Eq)]
pub enum Activity {
    Idle,
    Waited { task: u8 },
    Ran { task: u8, progress: Progress },
}

#[derive(Clone, Copy, Debug, PartialEq, Eq)]
pub struct SlotAnswer {
    pub activity: Activity,
    pub harvest: u32,
    pub draw: u64,
    pub level: u64,
    pub abandoned: u8,
}

impl fmt::Display for Progress {
    ghost output = { λ progress. Some (progress_shown progress) };

    fn fmt<W: fmt::Write>(&self, f: &mut fmt::Formatter<W>) -> fmt::Result {
        match self {
            Progress::GoesOn => f.write_str("goes on"),
            Progress::Finished { response } => write!(f, "finished {response}"),
        }
    }
}

impl fmt::Display for Activity {
    ghost output = { λ activity. Some (activity_shown activity) };

    fn fmt<W: fmt::Write>(&self, f: &mut fmt::Formatter<W>) -> fmt::Result {
        match self {
            Activity::Idle => f.write_str("idle"),
            Activity::Waited { task } => write!(f, "waited {task}"),
            // ` goes on` and ` finished ` reach a writer as one piece each
            Activity::Ran { task, progress } => match progress {
                Progress::GoesOn => write!(f, "ran {task} goes on"),
                Progress::Finished { response } => write!(f, "ran {task} finished {response}"),
            },
        }
    }
}

impl fmt::Display for SlotAnswer {
    ghost output = { λ answer. Some (answer_shown answer) };

    fn fmt<W: fmt::Write>(&self, f: &mut fmt::Formatter<W>) -> fmt::Result {
        write!(
            f,
            "{} harvest {} draw {} level {} abandoned {}",
            self.activity, self.harvest, self.draw, self.level, self.abandoned
        )
    }
}
