// A view of the log: its keys' slice and base, how many entries it has, and the front's place.
ghost use Rattle.std.specs.Prelude.{◌≡◌};
ghost use Rattle.rules.specs.Log.{key_at};
ghost use Rattle.event_log.specs.Log.{Ring};
ghost use Rattle.event_log.specs.Answers.{match_answer};
ghost use Rattle.log_borrowed.specs.View.{view_of};

use rules::EventKey;

// The words of g keys, the number of the first entry, how many entries there are, and where the first stands.
#[derive(Clone, Copy)]
pub struct LogView<'a> {
    pub keys: &'a [u64],
    pub base: u64,
    pub count: usize,
    pub front: usize,
    pub g: usize,
}

impl<'a> LogView<'a> {
    // The key of the event with number n, where the log has it.
    pub fn key_at(self, n: u64) -> Option<EventKey>
        requires { Ring self.g self.front self.count self.keys.now }
        ensures { result ≡ key_at n (view_of self.entry.keys.now self.entry.base self.entry.count self.entry.front self.entry.g) }
    {
        if n < self.base {
            return None;
        }
        let i = n - self.base;
        if i < self.count as u64 {
            let p = event_log::place(self.g, self.front, i as usize);
            return Some(event_log::key_in(self.keys, p));
        }
        None
    }

    // Whether a key is that of the event with number n, where the log has it.
    pub fn match_at(self, n: u64, key: EventKey) -> Option<bool>
        requires { Ring self.g self.front self.count self.keys.now }
        ensures { result ≡ match_answer key (key_at n
            (view_of self.entry.keys.now self.entry.base self.entry.count self.entry.front self.entry.g)) }
    {
        self.key_at(n).map(|there| there == key)
    }
}
