//! Texts, cut at a byte.
ghost use Rattle.std.specs.Prelude.{◌≡◌, ◌≤◌, ◌==◌, not, length};
ghost use Rattle.std.specs.List.{prefix_len};
ghost use Rattle.std.specs.Option.{option_copied};
ghost use Rattle.text_reading.specs.Cuts.{cut_at};

/// How many bytes come before the first `at`.
pub fn length_before(bytes: &[u8], at: u8) -> usize
    ensures len { result ≡ prefix_len (λ b. not (b == at)) bytes.now }
    ensures within { result ≤ length bytes.now }
{
    bytes.iter().take_while(|b| **b != at).count()
}

/// What stands before the first `at`, and what stands behind it, if it comes.
pub fn cut(bytes: &[u8], at: u8) -> (&[u8], Option<&[u8]>)
    ensures before { result.0.now ≡ (cut_at at bytes.now).0 }
    ensures behind { option_copied result.1 ≡ (cut_at at bytes.now).1 }
{
    let (before, rest) = bytes.split_at(length_before(bytes, at));
    match rest {
        [_, behind @ ..] => (before, Some(behind)),
        [] => (before, None),
    }
}
