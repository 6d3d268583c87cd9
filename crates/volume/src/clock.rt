// A sign of progress on standard error, where that is a terminal and the work takes more than two seconds.
use std::time;

// The second that it was at the last look, where the system told it, and how many of them were seen to begin, up to three.
#[derive(Drop)]
pub struct Clock<'a, R> {
    rt: &'a R,
    second: Option<u64>,
    begun: u8,
    is_on: bool,
    is_shown: bool,
}

impl<'a, R: time::Clock + Eprint> Clock<'a, R> {
    pub(super) fn start(rt: &'a R, is_on: bool) -> Clock<'a, R> {
        Clock {
            rt,
            second: now(rt),
            begun: 0,
            is_on,
            is_shown: false,
        }
    }

    // So many problems are done. At most one sign a second, and none before the third second begins.
    pub(super) fn tick(&mut self, problems: usize) {
        if !self.is_on {
            return;
        }
        let second = now(self.rt);
        if second == self.second {
            return;
        }
        self.second = second;
        if self.begun < 2 {
            self.begun += 1;
            return;
        }
        self.is_shown = true;
        let _ = eprint!(self.rt; "\rvolume: {problems} problems");
    }

    // The sign goes.
    pub(super) fn stop(&mut self) {
        if self.is_shown {
            let _ = eprint!(self.rt; "\r\x1b[K");
            self.is_shown = false;
        }
    }
}

fn now(time: &impl time::Clock) -> Option<u64> {
    Some(time.since_1970().ok()?.as_secs())
}
