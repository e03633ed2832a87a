#![tactic(auto)]
// The record of the open chapter and verse, and the steps that it takes.
ghost use Rattle.std.specs.Prelude.{◌≡◌};
ghost use Rattle.usx_state.specs.Mark.{new_marks, named_book, opened_chapter, closed_chapter, opened_verse, closed_verse, next_verse, next_chapter, all_closed};

use words::Part;

// A chapter that awaits its end.
#[derive(Clone, Copy)]
pub struct OpenChapter {
    pub book: Part,
    pub number: u32,
}

// A verse that awaits its end.
#[derive(Clone, Copy)]
pub struct OpenVerse {
    pub book: Part,
    pub number: u32,
    pub label: Part,
}

// The book and chapter of the moment, and what is open of them.
#[derive(Clone, Copy)]
pub struct Marks {
    pub book: Part,
    pub number: u32,
    pub chapter: Option<OpenChapter>,
    pub verse: Option<OpenVerse>,
}

impl Marks {
    // Nothing is open; the book has no code yet.
    pub fn new(number: u32) -> Self
        ensures { result ≡ new_marks number }
    {
        Marks {
            book: Part { start: 0, len: 0 },
            number,
            chapter: None,
            verse: None,
        }
    }

    // The book of what opens from here on.
    pub fn name_book(&mut self, book: Part)
        ensures { self.new ≡ named_book self.old book }
    {
        self.book = book;
    }

    pub fn open_chapter(&mut self, n: u32)
        ensures { self.new ≡ opened_chapter self.old n }
    {
        self.number = n;
        self.chapter = Some(OpenChapter {
            book: self.book,
            number: n,
        });
    }

    pub fn close_chapter(&mut self)
        ensures { self.new ≡ closed_chapter self.old }
    {
        self.chapter = None;
    }

    pub fn open_verse(&mut self, label: Part)
        ensures { self.new ≡ opened_verse self.old label }
    {
        self.verse = Some(OpenVerse {
            book: self.book,
            number: self.number,
            label,
        });
    }

    pub fn close_verse(&mut self)
        ensures { self.new ≡ closed_verse self.old }
    {
        self.verse = None;
    }

    // A verse starts: the open one ends first.
    #[tactic(auto, unfolding(crate::specs::Mark::next_verse))]
    pub fn next_verse(&mut self, label: Part)
        ensures { self.new ≡ next_verse self.old label }
    {
        self.close_verse();
        self.open_verse(label);
    }

    // A chapter starts: the open verse and chapter end first.
    #[tactic(auto, unfolding(crate::specs::Mark::next_chapter))]
    pub fn next_chapter(&mut self, n: u32)
        ensures { self.new ≡ next_chapter self.old n }
    {
        self.close_verse();
        self.close_chapter();
        self.open_chapter(n);
    }

    // The text ends, and the open verse and chapter with it.
    #[tactic(auto, unfolding(crate::specs::Mark::all_closed))]
    pub fn close_all(&mut self)
        ensures { self.new ≡ all_closed self.old }
    {
        self.close_verse();
        self.close_chapter();
    }
}
