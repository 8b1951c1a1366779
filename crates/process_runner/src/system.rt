ghost use Rattle.std.specs.Prelude.{◌≡◌, [], ◌∷◌, ◌++◌, IfOk, None, OnOk, ⊤};
ghost use Rattle.std.specs.Process.{command_args, command_program};
ghost use Rattle.process_runner.specs.Spawning.{no_faults};

use super::spawning::{SpawnFault, SpawnFaults, Spawned, Spawner};
use child_link::{PipeFeed, PipeLink};
use outside::WriteSink;
use scm_text::{Items, Text};
use std::alloc::Global;
use std::io;
use std::process::{Child, Command, Processes, Stdio, SystemProcess};

/// Starts programs of the system. The standard input and output of each are pipes, its standard
/// error stays where that of this process goes, and no other descriptor of this process is handed
/// on. It tells no content.
#[derive(Drop)]
pub struct ProcessSpawner<R: Processes<Started = SystemProcess>> {
    processes: R,
    alloc: Global,
    faults: SpawnFaults,
}

/// The fault that an error of the system is.
fn fault_of(error: &io::Error) -> SpawnFault {
    match error.kind() {
        io::ErrorKind::NotFound => SpawnFault::NotFound,
        io::ErrorKind::NotADirectory => SpawnFault::NoPath,
        io::ErrorKind::PermissionDenied => SpawnFault::Denied,
        _ => SpawnFault::Other,
    }
}

/// Adds an argument.
fn add_argument(command: &mut Command, argument: &str) -> io::Result<()>
    ensures args { OnOk result
        (command_args command.new ≡ command_args command.old ++ argument.now ∷ []) }
    ensures program { OnOk result (command_program command.new ≡ command_program command.old) }
{
    command.arg(argument)?;
    Ok(())
}

/// Adds arguments, and pipes for the standard input and output.
fn set_up(command: &mut Command, arguments: &[Text]) -> io::Result<()>
    ensures args { OnOk result
        (command_args command.new ≡ command_args command.old ++ arguments.now) }
    ensures program { OnOk result (command_program command.new ≡ command_program command.old) }
{
    for argument in arguments {
        add_argument(command, argument.as_str())?;
    }
    command.stdin(Stdio::piped()).stdout(Stdio::piped());
    Ok(())
}

/// The command of some words: the first names the program, and the rest are its arguments.
fn command_of(alloc: Global, words: &[Text]) -> io::Result<Command>
    ensures { IfOk result (λ c. words.now ≡ command_program c ∷ command_args c) }
{
    let Some((program, arguments)) = words.split_first() else {
        return Err(io::Error::from(io::ErrorKind::InvalidInput));
    };
    let mut command = Command::new(alloc, program.as_str())?;
    match set_up(&mut command, arguments) {
        Ok(()) => Ok(command),
        Err(error) => {
            drop(command);
            Err(error)
        }
    }
}

/// Takes the ends of a child's pipes.
fn spawned(mut child: Child) -> io::Result<Spawned<PipeLink, PipeFeed>> {
    let Some(input) = child.stdin.take() else {
        drop(child);
        return Err(io::Error::from(io::ErrorKind::Other));
    };
    let Some(output) = child.stdout.take() else {
        drop(input);
        drop(child);
        return Err(io::Error::from(io::ErrorKind::Other));
    };
    Ok(Spawned {
        link: PipeLink::new(child, output),
        feed: WriteSink::new(input),
    })
}

impl<R: Processes<Started = SystemProcess>> ProcessSpawner<R> {
    /// Has started nothing yet.
    pub fn new(processes: R, alloc: Global) -> Self
        ensures { ⟦<ProcessSpawner<R> as Spawner>⟧.faults result ≡ no_faults }
    {
        ProcessSpawner {
            processes,
            alloc,
            faults: SpawnFaults::NONE,
        }
    }

    /// Starts a program, and takes the ends of its pipes.
    fn run(&self, words: &[Text]) -> io::Result<Spawned<PipeLink, PipeFeed>> {
        let mut command = command_of(self.alloc, words)?;
        let child = command.spawn(&self.processes);
        drop(command);
        spawned(child?)
    }
}

impl<R: Processes<Started = SystemProcess>> Spawner for ProcessSpawner<R> {
    type Link = PipeLink;

    type Feed = PipeFeed;

    ghost started = { λ _. None };

    ghost faults = { λ s. s.faults };

    ghost gives = { λ _ _ _. ⊤ };

    fn start(&mut self, words: &Items<Text>) -> Result<Spawned<PipeLink, PipeFeed>, SpawnFault> {
        match self.run(words.as_slice()) {
            Ok(child) => Ok(child),
            Err(error) => Err(self.faults.count(fault_of(&error))),
        }
    }
}
