//! What the words of the command ask for.
ghost use Rattle.std.specs.Prelude.{IfOk, IfErr};
ghost use Rattle.spd_solver.specs.inner.Stages.{Asks, AskWrongly, IsWithinItsLimits, command_for};

use spd_model::{Options, Word};
use spd_words::{Command, WordsFault, read_words, text_at};

/// The two ways to solve a model. Both come to the same result.
#[derive(Clone, Copy, Debug)]
pub(crate) enum Way {
    /// Over decision diagrams, of at most as many nodes as the options allow.
    Diagrams,
    /// Over tables, of at most 4,096 states.
    Tables,
}

/// What a certificate is checked for.
#[derive(Clone, Copy, Debug)]
pub(crate) enum Purpose {
    /// The verdict alone.
    Judge,
    /// The certificate in its newest form, where it holds.
    Upgrade,
}

/// What the top call runs.
#[derive(Clone, Copy, Debug)]
pub(crate) enum Job<'a> {
    /// It solves the model in the file of this name.
    Solve {
        way: Way,
        file: &'a [u8],
        options: Options,
    },
    /// It writes the file of a ring of so many machines, 2 to 63.
    Generate {
        machines: u32,
    },
    /// It solves the process of a ring of so many machines, 2 to 63, on decision diagrams.
    Ring {
        machines: u32,
        options: Options,
    },
    /// It checks the certificate in one file of the model in another one, for this purpose.
    Check {
        purpose: Purpose,
        file: &'a [u8],
        cert: &'a [u8],
        options: Options,
    },
}

/// What the words ask the top call for, or the number of the first word that can't stand where it does, counted from 0. A command that
/// the top call doesn't run can't stand.
pub(crate) fn read_job(words: &[Word]) -> Result<Job<'_>, usize>
    ensures job { IfOk result (λ job. Asks words.now (command_for job)) }
    ensures limits { IfOk result (λ job. IsWithinItsLimits job) }
    ensures usage { IfErr result (AskWrongly words.now) }
{
    match read_words(words) {
        Ok(Command::Solve { file, options }) => Ok(Job::Solve {
            way: Way::Diagrams,
            file: text_at(words, file),
            options,
        }),
        Ok(Command::Plain { file, options }) => Ok(Job::Solve {
            way: Way::Tables,
            file: text_at(words, file),
            options,
        }),
        Ok(Command::Gen { n }) => Ok(Job::Generate { machines: n }),
        Ok(Command::Ring { n, options }) => Ok(Job::Ring {
            machines: n,
            options,
        }),
        Ok(
            Command::Check {
                file,
                cert,
                options,
            },
        ) => Ok(Job::Check {
            purpose: Purpose::Judge,
            file: text_at(words, file),
            cert: text_at(words, cert),
            options,
        }),
        Ok(
            Command::Upgrade {
                file,
                cert,
                options,
            },
        ) => Ok(Job::Check {
            purpose: Purpose::Upgrade,
            file: text_at(words, file),
            cert: text_at(words, cert),
            options,
        }),
        Ok(_) => Err(0),
        Err(WordsFault::Usage { word }) => Err(word),
    }
}
