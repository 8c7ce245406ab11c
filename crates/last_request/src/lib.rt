// The last accepted request and its answer in bytes that the host lends: a repeat is told by them, and answered by them.
#![tactic(auto)]

ghost use Rattle.std.specs.Prelude.{◌≡◌, ◌≤◌, length, Some};
ghost use Rattle.octets.specs.Bytes.{splice};
ghost use Rattle.laws.specs.Limits.{fragment_max};
ghost use Rattle.control.specs.Objects.{answer_max};
ghost use Rattle.last_request.specs.Repeat.{kept, last_in, is_repeat, kept_answer};

use application::FRAGMENT_MAX;
use control::ANSWER_MAX;

// How many of the lent bytes the last request and its answer have. An answer of no bytes: none was sent. Lengths beside arrays, since the host
// lends the arrays.
#[derive(Clone, Copy)]
pub struct LastLengths {
    pub request_len: usize,
    pub answer_len: usize,
}

// Keeps an accepted request and its answer.
pub fn remember(
    request: &mut [u8; FRAGMENT_MAX],
    answer: &mut [u8; ANSWER_MAX],
    f: &[u8],
    a: &[u8],
) -> LastLengths
    requires { (length f.now ≤ fragment_max) × (length a.now ≤ answer_max) }
    ensures { (last_in request.new answer.new (Some result) ≡ kept f.now a.now)
        × (result.request_len ≡ length f.now)
        × (result.answer_len ≡ length a.now) }
{
    octets::copy(request, 0, f);
    octets::copy(answer, 0, a);
    LastLengths {
        request_len: f.len(),
        answer_len: a.len(),
    }
}

// Whether a request is a repeat.
#[tactic(auto, using(laws::proofs::Filling::clamped, laws::proofs::SameLaws::same_as_eq), unfolding(crate::specs::Repeat::last_in, crate::specs::Repeat::is_repeat))]
pub fn is_repeat(
    request: &[u8; FRAGMENT_MAX],
    answer: &[u8; ANSWER_MAX],
    lengths: Option<LastLengths>,
    f: &[u8],
) -> bool
    requires { 2 ≤ length f.now }
    ensures { result ≡ is_repeat (last_in request.now answer.now lengths) f.now }
{
    let Some(kept) = lengths else {
        return false;
    };
    let n = kept.request_len.min(FRAGMENT_MAX);
    f[1] != 1 && f == &request[..n]
}

// Puts the kept answer at the front of the lent bytes, and says its length.
#[tactic(auto, using(laws::proofs::Filling::clamped), unfolding(crate::specs::Repeat::last_in))]
pub fn answer_again(
    request: &[u8; FRAGMENT_MAX],
    answer: &[u8; ANSWER_MAX],
    lengths: Option<LastLengths>,
    out: &mut [u8],
) -> usize
    requires { answer_max ≤ length out.old }
    ensures { (out.new ≡ splice out.old 0 (kept_answer (last_in request.now answer.now lengths)))
        × (result ≡ length (kept_answer (last_in request.now answer.now lengths)))
        × (result ≤ answer_max) }
{
    let Some(kept) = lengths else {
        return 0;
    };
    let n = kept.answer_len.min(ANSWER_MAX);
    octets::copy(out, 0, &answer[..n]);
    n
}
