// Questions 14, 24 and 26, of numbers: what the controller's registers are asked because of the handlers, and what a commit is asked of its number.
#![tactic(auto)]

ghost use Rattle.std.specs.Prelude.{◌≡◌};
ghost use Rattle.handlers_questions.specs.Questions.{may_write, may_store, may_commit};

// Question 14: whether a CSR may be written with this many handlers open.
pub fn may_write(address: u32, depth: u8) -> bool
    ensures { result ≡ may_write address depth }
{
    (address != 0xBCC) | (depth == 0)
}

// Question 24: whether v may be stored at the offset with this priord and this many handlers open.
pub fn may_store(offset: u32, v: u32, priord: u8, depth: u8) -> bool
    ensures { result ≡ may_store offset v priord depth }
{
    !((offset == 0x3000) & (v % 2 != priord as u32)) | (depth == 0)
}

// Question 26: whether n may be committed where a look would answer this.
// A number, and no Option: by 02 the answer 0 is none.
pub fn may_commit(n: u32, next: u32) -> bool
    ensures { result ≡ may_commit n next }
{
    (n != 0) & (n == next)
}
