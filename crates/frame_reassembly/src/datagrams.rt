//! How many datagrams there were.

ghost use Rattle.std.specs.Prelude.{◌≡◌};
ghost use Rattle.frame_reassembly.specs.Counts.{counted_if};

/// How many datagrams there were, as far as 64 bits can count them.
#[derive(Clone, Copy, Debug, PartialEq, Eq)]
pub struct Datagrams {
    /// Those of which a fragment has come.
    pub begun: u64,
    /// Those that are put together.
    pub put_together: u64,
    /// Those that are discarded: two of their fragments contradict each other or have the ECN
    /// codepoints `CE` and `Not-ECT`, or they would be longer than a packet can be.
    pub discarded: u64,
}

impl Datagrams {
    ghost use Rattle.std.specs.Prelude.{◌≡◌};
    ghost use Rattle.frame_reassembly.specs.Counts.{counted, left_over, no_datagrams};

    /// Before any fragment.
    pub fn none() -> Datagrams
        ensures value { result ≡ no_datagrams }
    {
        Datagrams {
            begun: 0,
            put_together: 0,
            discarded: 0,
        }
    }

    /// Those that are left over: of which fragments have come, and which are neither put together
    /// nor discarded. Some of these may have been given up for others. The result is too low if
    /// some had slots before this count began: they count where they end, and not as begun.
    ///
    /// # Example
    ///
    /// ```
    /// let datagrams = Datagrams {
    ///     begun: 5,
    ///     put_together: 3,
    ///     discarded: 1,
    /// };
    /// assert!(rt; datagrams.left_over() == 1);
    /// ```
    pub fn left_over(&self) -> u64
        ensures value { result ≡ left_over self.now }
    {
        self.begun
            .saturating_sub(self.put_together)
            .saturating_sub(self.discarded)
    }

    /// With one more fragment, with which a datagram begins, is whole, or is discarded.
    pub fn count(self, begins: bool, is_whole: bool, is_discarded: bool) -> Datagrams
        ensures value { result ≡ counted begins is_whole is_discarded self }
    {
        Datagrams {
            begun: count_if(begins, self.begun),
            put_together: count_if(is_whole, self.put_together),
            discarded: count_if(is_discarded, self.discarded),
        }
    }
}

// One more, if there is one more to count.
fn count_if(is: bool, count: u64) -> u64
    ensures value { result ≡ counted_if is count }
{
    if is { count.saturating_add(1) } else { count }
}
