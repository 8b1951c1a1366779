ghost use Rattle.std.specs.Prelude.{◌≡◌, ◌≤◌, ◌∷◌, [], true, false, IsTrue, length};
ghost use Rattle.scm_rules.specs.Launches.{head_word};
ghost use Rattle.scm_tables.specs.Lined.{emptied_line, words_told};
ghost use Rattle.scm_tables.specs.Rooms.{IsCommandRoom};

use super::rooms::CommandRoom;
use scm_text::{Items, TextRoom, WText};
use std::alloc::Global;
use std::marker::Model;
use std::mem::replace;

/// What the launch of a process is to have: the words of a service's, or the text of a command as
/// its one word, which isn't too long for a path.
#[derive(Drop)]
pub struct Line {
    command: bool,
    words: Items<WText>,
}

impl Model for Line {
    ghost use Rattle.std.specs.Prelude.{IsTrue, ◌≤◌, length};
    ghost use Rattle.scm_rules.specs.Launches.{head_word};
    ghost use Rattle.scm_tables.specs.Lined.{Lined};

    ghost Value = { Lined };

    ghost view = { λ l. record { command = l.command; words = l.words } };

    ghost invariant = { λ l. IsTrue l.command → length (head_word l.words) ≤ 2048 };
}

impl Line {
    /// The words of a service's process.
    pub fn of_service(words: Items<WText>) -> Line
        ensures { result ≡ record { command = false; words = words } }
    {
        Line {
            command: false,
            words,
        }
    }

    /// A command as its one word. It takes no memory.
    pub fn of_command(room: CommandRoom, command: &WText) -> Line
        requires room { IsCommandRoom room }
        requires command { length command.now ≤ 2048 }
        ensures { result ≡ record { command = true; words = command.now ∷ [] } }
    {
        let CommandRoom {
            mut text,
            mut words,
        } = room;
        text.set(command);
        words.push(text.into_text());
        Line {
            command: true,
            words: Items::from_vec(words.into_vec()),
        }
    }

    pub fn is_command(&self) -> bool
        ensures { result ≡ self.now.command }
    {
        self.command
    }

    /// Takes the words of a launch, which has none where it is a command's. It takes no memory.
    pub fn take_words(&mut self, alloc: Global) -> Items<WText>
        ensures words { result ≡ words_told self.old }
        ensures left { self.new ≡ emptied_line self.old }
    {
        let words = replace(&mut self.words, Items::new(alloc));
        if self.command {
            Items::new(alloc)
        } else {
            words
        }
    }

    /// Writes the text of a command. It takes no memory.
    pub fn write_command(&self, alloc: Global, path: &mut TextRoom)
        requires command { IsTrue self.now.command }
        requires room { 2048 ≤ path.old.room }
        ensures { path.new ≡ record { units = head_word self.now.words; room = path.old.room } }
    {
        match self.words.as_slice().first() {
            Some(word) => path.set(word),
            None => path.set(&WText::new(alloc)),
        }
    }
}
