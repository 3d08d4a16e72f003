//! What the lanes do together.
ghost use Rattle.std.specs.Prelude.{◌≡◌};
ghost use Rattle.lane_work.specs.FilePieces.{HasPieces, pieces_in};
ghost use Rattle.lane_work.specs.Work.{IsWork, all_tickets, is_last, words_of};

use crate::file::FileText;

/// The files, and how often each is to be counted. Ticket t stands for file t mod F in round t div F, where F is the
/// number of files.
#[derive(Drop)]
pub struct Work {
    pub files: Vec<FileText>,
    pub rounds: u64,
}

impl Work {
    /// How many tickets stand for a file.
    pub fn tickets(&self) -> u64
        requires { IsWork self.now }
        ensures { result ≡ all_tickets self.now }
    {
        self.rounds * self.files.len() as u64
    }

    /// The file that the ticket stands for.
    pub fn file(&self, ticket: u64) -> &FileText
        requires { IsWork self.now }
        ensures words { pieces_in result.now ≡ words_of self.now ticket }
        ensures lies { HasPieces result.now }
    {
        &self.files[(ticket % self.files.len() as u64) as usize]
    }

    /// Whether the ticket stands for a file in the last round, or for none.
    pub fn is_last(&self, ticket: u64) -> bool
        requires { IsWork self.now }
        ensures { result ≡ is_last self.now ticket }
    {
        self.rounds - 1 <= ticket / self.files.len() as u64
    }
}
