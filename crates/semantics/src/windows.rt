//! When windows begin and end.
ghost use Rattle.std.specs.Prelude.{◌≡◌, ◌≤◌};
ghost use Rattle.semantics.specs.Windows.{window_start, window_end, pane};

use crate::setup::Setup;

impl<R> Setup<R> {
    #[tactic(auto, unfolding(crate::specs::Windows::window_start))]
    fn begins(&self, window: u64) -> u64
        requires { window ≤ 4294967303 }
        ensures { result ≡ window_start self.now window }
    {
        u64::from(self.origin) + window * u64::from(self.slide)
    }

    /// When the window begins, in seconds.
    pub fn window_start(&self, window: u32) -> u64
        ensures { result ≡ window_start self.now window }
    {
        self.begins(u64::from(window))
    }

    /// When the window has ended.
    pub fn window_end(&self, window: u32) -> u64
        ensures { result ≡ window_end self.now window }
    {
        self.begins(u64::from(window) + u64::from(self.span))
    }

    /// How many whole slides lie between the origin and this time, 0 where it is before the origin.
    #[tactic(auto, unfolding(crate::specs::Windows::pane))]
    pub fn pane(&self, time: u32) -> u32
        ensures { result ≡ pane self.now time }
    {
        time.saturating_sub(self.origin) / self.slide
    }
}
