// Words that are cut at a mark.
ghost use Rattle.std.specs.Prelude.{◌≡◌};
ghost use Rattle.std.specs.Option.{option_map};
ghost use Rattle.entries_file.specs.Cuts as cuts;

/// The parts of a word in front of a mark and behind it, where the mark stands for the first time.
pub fn cut<'t>(mark: &[u8], word: &'t [u8]) -> Option<(&'t [u8], &'t [u8])>
    ensures { option_map (λ parts. (parts.0.now, parts.1.now)) result ≡ cuts.cut mark.now word.now }
{
    for at in 0..word.len() {
        let (front, rest) = word.split_at(at);
        if rest.starts_with(mark) {
            return Some((front, rest.split_at(mark.len()).1));
        }
    }
    None
}
