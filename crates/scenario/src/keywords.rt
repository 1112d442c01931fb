//! The words with which a line begins, and those that follow `kernel`.

ghost use Rattle.std.specs.Prelude.{◌≡◌};
ghost use Rattle.scenario.specs.Keywords.{keyword_of, kernel_word_of};

/// The first word of a line.
#[derive(Clone, Copy)]
pub enum Keyword {
    Load,
    Restart,
    Unload,
    Call,
    Run,
    Finish,
    Irq,
    Tick,
    Work,
    Answer,
    Kernel,
    Show,
}

/// The word after `kernel`.
#[derive(Clone, Copy)]
pub enum KernelWord {
    Line,
    FreeLine,
    Param,
    ClearParam,
    Hold,
    DropHold,
    Lock,
    Unlock,
}

/// The keyword that is spelled so.
pub fn read_keyword(word: &[u8]) -> Option<Keyword>
    ensures { result ≡ keyword_of word.now }
{
    if word == b"load".as_slice() {
        Some(Keyword::Load)
    } else if word == b"restart".as_slice() {
        Some(Keyword::Restart)
    } else if word == b"unload".as_slice() {
        Some(Keyword::Unload)
    } else if word == b"call".as_slice() {
        Some(Keyword::Call)
    } else if word == b"run".as_slice() {
        Some(Keyword::Run)
    } else if word == b"finish".as_slice() {
        Some(Keyword::Finish)
    } else if word == b"irq".as_slice() {
        Some(Keyword::Irq)
    } else if word == b"tick".as_slice() {
        Some(Keyword::Tick)
    } else if word == b"work".as_slice() {
        Some(Keyword::Work)
    } else if word == b"answer".as_slice() {
        Some(Keyword::Answer)
    } else if word == b"kernel".as_slice() {
        Some(Keyword::Kernel)
    } else if word == b"show".as_slice() {
        Some(Keyword::Show)
    } else {
        None
    }
}

/// The word after `kernel` that is spelled so.
pub fn read_kernel_word(word: &[u8]) -> Option<KernelWord>
    ensures { result ≡ kernel_word_of word.now }
{
    if word == b"line".as_slice() {
        Some(KernelWord::Line)
    } else if word == b"free_line".as_slice() {
        Some(KernelWord::FreeLine)
    } else if word == b"param".as_slice() {
        Some(KernelWord::Param)
    } else if word == b"clear_param".as_slice() {
        Some(KernelWord::ClearParam)
    } else if word == b"hold".as_slice() {
        Some(KernelWord::Hold)
    } else if word == b"drop_hold".as_slice() {
        Some(KernelWord::DropHold)
    } else if word == b"lock".as_slice() {
        Some(KernelWord::Lock)
    } else if word == b"unlock".as_slice() {
        Some(KernelWord::Unlock)
    } else {
        None
    }
}
