use super::Case;
use etherparse::checksum::Sum16BitWords;

impl<'a> Case<'a> {
    /// The bytes of each word that is left, for any number of words.
    pub fn pieces(&mut self) -> Vec<Vec<u8>> {
        let mut pieces = Vec::new(self.alloc);
        for _ in 0..u64::MAX {
            match self.next_word() {
                Some(word) => {
                    let pushed = pieces.push(self.decoded(word));
                    self.answer.note(&pushed);
                }
                None => break,
            }
        }
        pieces
    }

    /// The sum of the steps that are left, or of those before a `/` if another sum has to follow.
    pub fn sum(&mut self, another_follows: bool) -> Sum16BitWords {
        let mut sum = Sum16BitWords::new();
        let mut at_slash = false;
        for _ in 0..u64::MAX {
            match self.next_word() {
                Some("/") => {
                    at_slash = true;
                    break;
                }
                Some(step) => sum = self.added(sum, step),
                None => break,
            }
        }
        if at_slash != another_follows {
            self.refuse();
        }
        sum
    }

    // The sum with the bytes of a step: how many there are or `s` for a slice, a colon, the bytes.
    fn added(&mut self, mut sum: Sum16BitWords, step: &str) -> Sum16BitWords {
        let (count, digits) = step.split_once(':').unwrap_or(("", ""));
        match count {
            "s" => sum.add_slice(&self.decoded(digits)),
            _ => self.added_array(sum, count, digits),
        }
    }

    // The sum with as many bytes as a count says.
    fn added_array(&mut self, mut sum: Sum16BitWords, count: &str, digits: &str) -> Sum16BitWords {
        match count {
            "2" => sum.add_2bytes(self.decoded_array(digits)),
            "4" => sum.add_4bytes(self.decoded_array(digits)),
            "8" => sum.add_8bytes(self.decoded_array(digits)),
            "16" => sum.add_16bytes(self.decoded_array(digits)),
            _ => {
                self.refuse();
                sum
            }
        }
    }
}
