// Each function's contract is a law.
ghost use Rattle.book.specs.Law.{BookStands, ListsUpheld};

// After any list of requests, the book's words are the last writers', and a read holds those at its turn.
pub fn book_stands()
    ensures { BookStands }
{}

// Any list of calls, each as its contract says, keeps the law: no fault, last writers, reads, clocks and refusals.
pub fn lists_upheld()
    ensures { ListsUpheld }
{}
