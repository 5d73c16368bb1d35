//! Laws that say in other words what the definitions cited by contracts mean. The functions do
//! nothing: each contract is a law.

ghost use Rattle.std.specs.Prelude.{◌≡◌, ℕ, ◌<◌, List, [], ◌∷◌, map, take, Option, Ok, Err};
ghost use Rattle.pdb_base.specs.Refusal.{Refusal, page_reference_out_of_range};
ghost use Rattle.pdb_base.specs.Rules.{FollowsRules};
ghost use Rattle.pdb_msf.specs.Pages.{pages, valid_page, page_numbers};
ghost use Rattle.pdb_msf.specs.Runs.{AreJoined};
ghost use Rattle.pdb_msf.specs.Header.{Head, file_head, head_of};
ghost use Rattle.pdb_msf.specs.Directory.{directory_of};
ghost use Rattle.pdb_msf.specs.Faults.{head_in, header_rules, file_rules, directory_rules, stream_rules};
ghost use Rattle.pdb_msf.specs.File.{stream_of};
ghost use Rattle.pdb_msf.specs.Layout.{LayoutValue, layout_of, stream_by};
ghost use Rattle.pdb_msf.specs.Laws.{IsLeast, Scatters, HasHeaderAtOffsets, AreGood, FirstFault, CutsOnly};
ghost use Rattle.pdb_msf.specs.Laws.{IsDirectory, IsStream, Moment, IsLater, AnswersAlike};

/// The number of pages that some bytes take is the least that holds them.
pub fn pages()
    ensures { (page_size bytes : ℕ) → 0 < page_size → IsLeast page_size bytes (pages page_size bytes) }
{}

/// Worked examples: how many pages of 4096 bytes hold 0, 1, 4095, 4096 and 4097 bytes, and which
/// page numbers are good if 15 pages are used.
#[tactic(auto, unfolding(crate::specs::Pages::pages))]
pub fn worked_rows()
    ensures counts { map (pages 4096) (0 ∷ 1 ∷ 4095 ∷ 4096 ∷ 4097 ∷ []) ≡ 0 ∷ 1 ∷ 1 ∷ 1 ∷ 2 ∷ [] }
    ensures good { map (valid_page 15) (1 ∷ 14 ∷ 15 ∷ []) ≡ Ok 1 ∷ Ok 14 ∷ Ok 15 ∷ [] }
    ensures bad { map (valid_page 15) (0 ∷ 16 ∷ 17 ∷ []) ≡
        map (λ number. Err (page_reference_out_of_range number)) (0 ∷ 16 ∷ 17 ∷ []) }
{}

/// What is scattered over pages is found byte by byte: byte i in page i / page size of the list, at
/// i % page size. It is not found if one of these positions is past the end of the file.
#[tactic(auto, using(crate::proofs::LawLemmas::scatters))]
pub fn scatter()
    ensures { (file : List ℕ) (page_size : ℕ) (numbers : List ℕ) (size : ℕ) → Scatters file page_size numbers size }
{}

/// Pages that are added one after another are joined into slices that are exactly their longest
/// runs: a slice is a run of pages of which each is one above the page before, and no two
/// neighbours could be joined.
#[tactic(auto, using(crate::proofs::RunLemmas::are_joined))]
pub fn page_list()
    ensures { (page_size : ℕ) (pages : List ℕ) → 0 < page_size → AreJoined page_size pages }
{}

/// A header has its page size at byte 32, its pages used at 40, its directory size at 44, and the
/// pages that locate the directory from byte 52 on.
#[tactic(auto, using(crate::proofs::LawLemmas::stand_at_offsets))]
pub fn header()
    ensures { (view : List ℕ) → HasHeaderAtOffsets view }
{}

/// Page numbers are read as they are in the bytes if all are good, and otherwise the error is that
/// of the first bad one.
pub fn page_numbers()
    ensures good { (pages_used count : ℕ) (words numbers : List ℕ) →
        page_numbers pages_used count words ≡ Ok numbers → AreGood pages_used count words numbers }
    ensures fault { (pages_used count : ℕ) (words : List ℕ) (fault : Refusal) →
        page_numbers pages_used count words ≡ Err fault → FirstFault pages_used count words fault }
{}

/// A header has the error of the first rule of its list that the bytes break. If they break none, it
/// has its numbers at fixed offsets, and the page numbers that follow them.
#[tactic(auto, using(crate::proofs::lemmas::Faults::header_follows, crate::proofs::lemmas::Faults::file_follows))]
pub fn header_faults()
    ensures view { (view : List ℕ) → FollowsRules (header_rules view) (λ head. head ≡ head_in view) (head_of view) }
    ensures file { (file : List ℕ) →
        FollowsRules (file_rules file) (λ head. head ≡ head_in (take 4096 file)) (file_head file) }
{}

/// A directory has the error of the first rule of its list that the file breaks, and is there if the
/// file breaks none.
#[tactic(auto, using(crate::proofs::lemmas::Faults::directory_follows))]
pub fn directory_faults()
    ensures { (file : List ℕ) (head : Head) →
        FollowsRules (directory_rules file head) (IsDirectory file head) (directory_of file head) }
{}

/// A stream has the error of the first of its nine rules that the file breaks, and has its bytes if
/// the file breaks none.
#[tactic(auto, using(crate::proofs::lemmas::Faults::stream_follows))]
pub fn stream_faults()
    ensures { (file : List ℕ) (head : Head) (n : ℕ) (limit : Option ℕ) →
        FollowsRules (stream_rules file head n limit) (IsStream file head n limit) (stream_of file head n limit) }
{}

/// If a stream is answered without a limit, then the answer with a limit is its first bytes, no
/// more than the limit.
#[tactic(auto, using(crate::proofs::LawLemmas::cuts_only))]
pub fn limits()
    ensures { (file : List ℕ) (head : Head) (n limit : ℕ) → CutsOnly file head n limit }
{}

/// The bytes of a stream: its page numbers are the words of the directory from place 4 + 4 c + 4 s
/// on, for c streams of which those before it take s pages, and byte i of the stream is the file's
/// byte in page i / page size of these, at i % page size.
pub fn streams()
    ensures is { (file : List ℕ) (head : Head) (n : ℕ) (limit : Option ℕ) (bytes : List ℕ) →
        stream_of file head n limit ≡ Ok bytes → IsStream file head n limit bytes }
    ensures only { (file : List ℕ) (head : Head) (n : ℕ) (limit : Option ℕ) (bytes : List ℕ) →
        IsStream file head n limit bytes → stream_of file head n limit ≡ Ok bytes }
{}

/// A layout that was read from a file's bytes has the header with which that file opens. Each
/// stream read by it from those bytes is the file's stream, or fails as that does.
#[tactic(auto, using(crate::proofs::LayoutLemmas::head_read, crate::proofs::LayoutLemmas::same_stream))]
pub fn layouts()
    ensures head { (file : List ℕ) (layout : LayoutValue) → layout_of file ≡ Ok layout → file_head file
        ≡ Ok layout.head }
    ensures stream { (file : List ℕ) (layout : LayoutValue) (n : ℕ) (limit : Option ℕ) →
        layout_of file ≡ Ok layout → stream_by layout file n limit ≡ stream_of file layout.head n limit }
{}

/// A stream has one answer, whatever was read before: each call of `get` leads to a later moment of
/// the file, and so do any calls one after another.
#[tactic(auto, using(crate::proofs::StreamLaws::later_here, crate::proofs::StreamLaws::later_then, crate::proofs::StreamLaws::alike))]
pub fn answers()
    ensures here { (moment : Moment) → IsLater moment moment }
    ensures then_later { (before middle after : Moment) →
        IsLater before middle → IsLater middle after → IsLater before after }
    ensures alike { (before after : Moment) (n : ℕ) (limit : Option ℕ) →
        IsLater before after → AnswersAlike before after n limit }
{}
