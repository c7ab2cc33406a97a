ghost use Rattle.std.specs.Prelude.{◌≡◌, ◌++◌, ◌∷◌, [], OnOk, OnErr, IfSome};
ghost use Rattle.vdo_words.specs.Ranges.{IsCommandWithin};
ghost use Rattle.vdo_cli.specs.Commands as commands;
ghost use Rattle.vdo_cli.specs.Commands.{IsServedWithin, IsSetup, served_of};

use blk_base::Geometry;
use std::alloc::{AllocError, Global};
use std::marker::Model;
use vdo_core::Setup;
use vdo_words::{
    Command, CoreOptions, CrashOptions, DEFAULT_CORE, Drive, FormatOptions, GrowOptions,
    WorkloadOptions, read_command,
};

// Whether the options of a core are served: its hash zones and leaf pages are those that it has without any.
fn are_served(options: &CoreOptions) -> bool
    ensures { result ≡ commands.are_served options.now }
{
    options.hash_zones == DEFAULT_CORE.hash_zones && options.cache == DEFAULT_CORE.cache
}

/// How requests are served.
#[derive(Clone, Copy)]
pub(crate) struct Course {
    /// The number of the schedule.
    pub(crate) schedule: u64,
    /// How the core is set up.
    pub(crate) setup: Setup,
}

/// The schedule of this number, and a core that is set up as its options say.
pub(crate) fn course_of(schedule: u64, options: &CoreOptions) -> Course
    requires { IsSetup (commands.setup_of options.now) }
    ensures { result ≡ commands.course_of schedule options.now }
{
    Course {
        schedule,
        setup: Setup {
            logical_zones: options.logical_zones as u8,
            physical_zones: options.physical_zones as u8,
            depth: options.depth,
        },
    }
}

/// What is done to an image that is there, and may write it. The device is flushed before.
#[derive(Clone, Copy)]
pub(crate) enum Change {
    /// A script is run so.
    Script(Course),
    /// The requests of a seed are served.
    Workload(WorkloadOptions),
    /// An image whose last session wasn't closed is closed.
    Recover,
    /// An image's stored counts are set from its block map.
    ForceRebuild,
    /// An image gets so many addresses and slabs.
    Grow(GrowOptions),
}

/// What words ask for, of what is served.
#[derive(Clone, Copy)]
pub(crate) enum Served {
    /// An image is changed.
    Change(Change),
    /// A stop of a script is tried on a copy.
    Crash(CrashOptions),
    /// An image of these sizes is made.
    Format(Geometry),
    /// An image's stored counts are compared with its mappings.
    Audit,
    /// An image is asked what it says of itself.
    Status,
}

// The sizes that the options of `format` give.
fn sizes_of(options: &FormatOptions) -> Geometry
    ensures { result ≡ commands.sizes_of options.now }
{
    Geometry {
        logical: options.logical,
        slabs: options.slabs,
        slab_blocks: options.slab_blocks,
        journal: options.journal,
        index: options.index,
        slab_journal: options.slab_journal,
        height: options.height,
        nonce: options.nonce,
    }
}

// What a command asks for, where it is served.
fn served_in(command: Option<Command>) -> Option<Served>
    requires { IfSome command IsCommandWithin }
    ensures served { result ≡ commands.served_in command }
    ensures within { IsServedWithin result }
{
    match command {
        Some(Command::Run(options)) if are_served(&options.core) => match options.drive {
            Drive::Schedule(number) => {
                let course = course_of(number, &options.core);
                Some(Served::Change(Change::Script(course)))
            }
            Drive::Threads => None,
        },
        Some(Command::Workload(options)) if are_served(&options.core) => {
            Some(Served::Change(Change::Workload(options)))
        }
        Some(Command::Crash(options)) if are_served(&options.core) => Some(Served::Crash(options)),
        Some(Command::Format(options)) => Some(Served::Format(sizes_of(&options))),
        Some(Command::Recover) => Some(Served::Change(Change::Recover)),
        Some(Command::ForceRebuild) => Some(Served::Change(Change::ForceRebuild)),
        Some(Command::Grow(options)) => Some(Served::Change(Change::Grow(options))),
        Some(Command::Audit) => Some(Served::Audit),
        Some(Command::Status) => Some(Served::Status),
        _ => None,
    }
}

/// The words of a command line, behind the program's name.
#[derive(Drop)]
pub struct Words {
    texts: Vec<String>,
}

impl Model for Words {
    ghost use Rattle.std.specs.Prelude.{List, ℕ, map, string_bytes};

    ghost Value = { List (List ℕ) };

    ghost view = { λ w. map string_bytes w.texts.items };
}

impl Words {
    /// No word yet. What the words take is asked of this allocator.
    pub fn new(alloc: Global) -> Words
        ensures { result ≡ [] }
    {
        Words {
            texts: Vec::new(alloc),
        }
    }

    /// Adds a word at the end. It fails where memory runs out, and then changes nothing.
    pub fn push(&mut self, word: &str) -> Result<(), AllocError>
        ensures ok { OnOk result (self.new ≡ self.old ++ word.now ∷ []) }
        ensures err { OnErr result (self.new ≡ self.old) }
    {
        let text = String::from_str(*self.texts.allocator(), word)?;
        self.texts.push(text)?;
        Ok(())
    }

    // The allocator that the words came from.
    pub(crate) fn allocator(&self) -> Global {
        *self.texts.allocator()
    }

    // What the words ask for; `None` where they are nothing that is served.
    pub(crate) fn served(&self) -> Option<Served>
        ensures served { result ≡ served_of self.now }
        ensures within { IsServedWithin result }
    {
        let command = read_command(self.allocator(), &self.texts).ok();
        served_in(command)
    }
}
