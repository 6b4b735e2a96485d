// The printed lines of a day and of its book. Those with a page are laid as text by crate `pagetext`, and any of them by crate `laying`.
#![tactic(auto)]

// A printed line (document 01, Day files and the day runner; document 02, K1). The words of a page, and the
// numbers of their last writings, lie in slices beside it.
#[derive(Clone, Copy)]
pub enum Line {
    // open COUNT
    Opened {
        count: u32,
    },
    // EVENT entry PROCESS WORD
    Update {
        event: u32,
        process: u32,
        word: u32,
    },
    // EVENT asked PROCESS
    Scan {
        event: u32,
        process: u32,
    },
    // EVENT read PROCESS
    Read {
        event: u32,
        process: u32,
    },
    // EVENT written PROCESS turns TURNS
    Written {
        event: u32,
        process: u32,
        turns: u32,
    },
    // EVENT page PROCESS from LENDER at INSTANT turns TURNS words WORD .. last EVENT ..
    Page {
        event: u32,
        process: u32,
        lender: u32,
        at: u32,
        turns: u32,
    },
    // NUMBER page PROCESS words WORD ..
    BookPage {
        number: u32,
        process: u32,
    },
    // refused NUMBER
    Refused {
        number: u32,
    },
    // end EVENT
    End {
        event: u32,
    },
}

// The bytes that are kept free for one line. No line is longer.
pub const LONGEST: usize = 272;
