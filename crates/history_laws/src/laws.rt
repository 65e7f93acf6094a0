//! Laws of the world that callers rest on: functions that do nothing, whose contracts are the laws.
ghost use Rattle.std.specs.Prelude.{◌≡◌, ◌<◌, ◌≤◌, ◌+◌, ◌*◌, ◌==◌, true, false, [], ◌∷◌, ◌++◌, length, ℕ, List, Bool, Option, Some, None, if◌then◌else◌, option_map, IsSome};
ghost use Rattle.std.specs.List.{All};
ghost use Rattle.write_history.specs.declared.entry.Entry.{Entry};
ghost use Rattle.write_history.specs.declared.change.Change.{Change};
ghost use Rattle.write_history.specs.declared.change.Change.TheVariants.{Intake};
ghost use Rattle.write_history.specs.World.{World, File, file_of, next_id, id_at, is_unready, unready_ids, lowest_unready, count_of};
ghost use Rattle.write_history.specs.Changes.{max_changes, NamesPaths, GivesContent, stamps_drawn, files_made};
ghost use Rattle.write_history.specs.Effect.{Put, max_entries, put_of, refusal_of, stamp_of};
ghost use Rattle.write_history.specs.Fold.{ListRefusal, after_put, effect_of, effects_of, after_list, list_refusal, fold, fold_from, IsLegal, IsLegalFrom};
ghost use Rattle.write_history.specs.Settle.{all_settled, refused_for, with_entry, intake_of, intake_entry, settled};
ghost use Rattle.write_history.specs.Counts.{counted_as};
ghost use Rattle.write_history.specs.declared.refusal.Refusal.{Refusal};
ghost use Rattle.write_history.specs.declared.refusal.Refusal.TheVariants.{HistoryFull};
ghost use Rattle.write_history.specs.Text.{max_chars};
ghost use Rattle.write_history.specs.Document.{Document};
ghost use Rattle.write_history.specs.Path.{is_path};
ghost use Rattle.write_history.specs.Stamps.{IsAsStamped, KeepsOrDrawsStamp};

/// A longer history goes on from the world of the shorter one. It is legal where the shorter one is and none of its
/// further entries is refused where it stands.
pub fn histories_go_on()
    ensures fold { (earlier : List Entry) (later : List Entry)
        → fold (earlier ++ later) ≡ fold_from (fold earlier) later }
    ensures legal { (entries : List Entry) (entry : Entry) → IsLegal entries
        → list_refusal (fold entries) entry.changes ≡ None → IsLegal (entries ++ entry ∷ []) }
    ensures shorter { (earlier : List Entry) (later : List Entry) → IsLegal (earlier ++ later)
        → IsLegal earlier }
    ensures rest { (earlier : List Entry) (later : List Entry) → IsLegal (earlier ++ later)
        → IsLegalFrom (fold earlier) later }
    ensures entries { (entries : List Entry) → (fold entries).entries ≡ length entries }
{}

/// A put changes what has its id, and nothing else; an accepted change puts at an id that was given, or at the next one.
pub fn puts_change_one_file()
    ensures put { (world : World) (put : Put) (id : ℕ) → 1 ≤ put.id → put.id ≤ next_id world
        → file_of (after_put world put) id ≡ (if id == put.id then put.file else file_of world id) }
    ensures first { (world : World) (change : Change) → refusal_of world change ≡ None
        → 1 ≤ (put_of world change).id }
    ensures last { (world : World) (change : Change) → refusal_of world change ≡ None
        → (put_of world change).id ≤ next_id world }
{}

/// A put takes what the old file adds to a count away, and adds what the new one does. One at an id that was given
/// makes no file more, and one at the next id makes one.
pub fn puts_are_counted()
    ensures count { (test : Option File → Bool) (world : World) (put : Put) → test None ≡ false
        → 1 ≤ put.id → put.id ≤ next_id world
        → count_of test (after_put world put) + counted_as test (file_of world put.id)
        ≡ count_of test world + counted_as test put.file }
    ensures same { (world : World) (put : Put) → 1 ≤ put.id → put.id < next_id world
        → next_id (after_put world put) ≡ next_id world }
    ensures more { (world : World) (put : Put) → put.id ≡ next_id world
        → next_id (after_put world put) ≡ next_id world + 1 }
{}

/// Worlds with the same files and counters are the same.
pub fn worlds_are_what_they_hold()
    ensures { (world : World) (other : World) → next_id world ≡ next_id other
        → ((id : ℕ) → file_of world id ≡ file_of other id) → world.next_stamp ≡ other.next_stamp
        → world.entries ≡ other.entries → world ≡ other }
{}

/// A longer list of changes goes on from where the shorter one leads, and the first refused change is refused at its
/// place.
pub fn lists_go_on()
    ensures effects { (world : World) (earlier : List Change) (later : List Change)
        → effects_of world (earlier ++ later) ≡ effects_of (effects_of world earlier) later }
    ensures accepted { (world : World) (earlier : List Change) (change : Change)
        → list_refusal world earlier ≡ None → refusal_of (effects_of world earlier) change ≡ None
        → list_refusal world (earlier ++ change ∷ []) ≡ None }
    ensures refused { (world : World) (earlier : List Change) (change : Change)
        (later : List Change) (why : Refusal)
        → list_refusal world earlier ≡ None
        → refusal_of (effects_of world earlier) change ≡ Some why
        → list_refusal world (earlier ++ change ∷ later)
        ≡ Some (record { place = length earlier + 1; why = why }) }
{}

/// Ids are places, and a place is never given twice: their number grows with an accepted create alone, and a deleted
/// file is never live again.
pub fn ids_are_places()
    ensures made { (world : World) (change : Change) → refusal_of world change ≡ None
        → next_id (effect_of world change) ≡ next_id world + files_made change }
    ensures grows { (earlier : List Entry) (later : List Entry) → IsLegal (earlier ++ later)
        → next_id (fold earlier) ≤ next_id (fold (earlier ++ later)) }
    ensures gone { (world : World) (change : Change) (id : ℕ) → refusal_of world change ≡ None
        → id < next_id world → file_of world id ≡ None
        → file_of (effect_of world change) id ≡ None }
    ensures gone_for_good { (earlier : List Entry) (later : List Entry) (id : ℕ)
        → IsLegal (earlier ++ later) → id < next_id (fold earlier)
        → file_of (fold earlier) id ≡ None → file_of (fold (earlier ++ later)) id ≡ None }
    ensures live { (world : World) (id : ℕ) (file : File) → file_of world id ≡ Some file
        → (1 ≤ id) × (id < next_id world) }
{}

/// The counter of stamps never falls: a change raises it by the number of stamps that it draws, which is one at most.
pub fn counter_of_stamps_never_falls()
    ensures drawn { (world : World) (change : Change)
        → (effect_of world change).next_stamp ≡ world.next_stamp + stamps_drawn change }
    ensures few { (world : World) (changes : List Change)
        → (effects_of world changes).next_stamp ≤ world.next_stamp + length changes }
    ensures rises { (earlier : List Entry) (later : List Entry) → IsLegal (earlier ++ later)
        → (fold earlier).next_stamp ≤ (fold (earlier ++ later)).next_stamp }
    ensures bound { (entries : List Entry)
        → All (λ entry. length entry.changes ≤ max_changes) entries
        → (fold entries).next_stamp ≤ max_changes * length entries + 1 }
{}

/// After a legal history the stamps of live files, and those at which they were indexed, are below the next one.
pub fn stamps_are_below_the_next()
    ensures stamp { (entries : List Entry) (id : ℕ) (file : File) → IsLegal entries
        → file_of (fold entries) id ≡ Some file → file.stamp < (fold entries).next_stamp }
    ensures indexed { (entries : List Entry) (id : ℕ) (file : File) (stamp : ℕ) → IsLegal entries
        → file_of (fold entries) id ≡ Some file
        → file.indexed ≡ Some stamp → stamp < (fold entries).next_stamp }
{}

/// What a change draws is the counter as it was: what has an id goes, or is as it was stamped, or gets that stamp. So
/// a stamp that a file has after any later change is the one that it had, or one that no file had before: no stamp is
/// given twice, those of deleted and overwritten states included.
pub fn stamps_are_given_once()
    ensures drawn { (world : World) (change : Change) (id : ℕ) → refusal_of world change ≡ None
        → KeepsOrDrawsStamp (λ stamp. stamp ≡ world.next_stamp) (file_of world id)
        (file_of (effect_of world change) id) }
    ensures later { (earlier : List Entry) (later : List Entry) (id : ℕ)
        → IsLegal (earlier ++ later)
        → KeepsOrDrawsStamp (λ stamp. (fold earlier).next_stamp ≤ stamp) (file_of (fold earlier) id)
        (file_of (fold (earlier ++ later)) id) }
{}

/// A live file that has the stamp of an earlier place of the history has the content and the path of that place: what
/// was made from them there is of its content and path now.
pub fn same_stamp_is_same_content()
    ensures { (earlier : List Entry) (later : List Entry) (id : ℕ) (old : File) (new : File)
        → IsLegal (earlier ++ later) → file_of (fold earlier) id ≡ Some old
        → file_of (fold (earlier ++ later)) id ≡ Some new → new.stamp ≡ old.stamp
        → IsAsStamped old new }
{}

/// After a legal history no two live files have the same path, so the path of a live file leads to its id. What is at
/// a path is always a live file with that path.
pub fn live_files_have_paths_of_their_own()
    ensures apart { (entries : List Entry) (id : ℕ) (other : ℕ) (file : File) (second : File)
        → IsLegal entries → file_of (fold entries) id ≡ Some file
        → file_of (fold entries) other ≡ Some second → file.path ≡ second.path → id ≡ other }
    ensures id { (entries : List Entry) (id : ℕ) (file : File) → IsLegal entries
        → file_of (fold entries) id ≡ Some file → id_at (fold entries) file.path ≡ Some id }
    ensures file { (world : World) (path : List ℕ) (id : ℕ) → id_at world path ≡ Some id
        → (file : File) × (file_of world id ≡ Some file) × (file.path ≡ path) }
    ensures none { (world : World) (id : ℕ) (file : File) → id_at world file.path ≡ None
        → file_of world id ≡ Some file → ⊥ }
{}

/// The entries of a legal history name lawful paths alone, and after it each live file has one: a file gets another
/// only by an accepted move, and a change of a path that no live file has is refused.
pub fn paths_are_lawful()
    ensures named { (entries : List Entry) → IsLegal entries
        → All (λ entry. All (NamesPaths (λ path. is_path path ≡ true)) entry.changes) entries }
    ensures live { (entries : List Entry) (id : ℕ) (file : File) → IsLegal entries
        → file_of (fold entries) id ≡ Some file → is_path file.path ≡ true }
{}

/// After a legal history a saved document has the file's content.
pub fn saved_documents_have_the_content()
    ensures { (entries : List Entry) (id : ℕ) (file : File) (document : Document) → IsLegal entries
        → file_of (fold entries) id ≡ Some file → file.document ≡ Some document
        → document.saved ≡ true → document.text ≡ file.content }
{}

/// Where no change gives a file a content that is too long, no text of the world is: an insert that would make one so
/// is refused.
pub fn texts_stay_within_their_length()
    ensures content { (entries : List Entry) (id : ℕ) (file : File) → IsLegal entries
        → All (λ entry. All (GivesContent (λ text. length text ≤ max_chars)) entry.changes) entries
        → file_of (fold entries) id ≡ Some file → length file.content ≤ max_chars }
    ensures text { (entries : List Entry) (id : ℕ) (file : File) (document : Document)
        → IsLegal entries
        → All (λ entry. All (GivesContent (λ text. length text ≤ max_chars)) entry.changes) entries
        → file_of (fold entries) id ≡ Some file → file.document ≡ Some document
        → length document.text ≤ max_chars }
    ensures committed { (entries : List Entry) (id : ℕ) (file : File) (document : Document)
        → IsLegal entries
        → All (λ entry. All (GivesContent (λ text. length text ≤ max_chars)) entry.changes) entries
        → file_of (fold entries) id ≡ Some file → file.document ≡ Some document
        → length document.committed ≤ max_chars }
{}

/// The lowest unready file is the first of the unready ones, of which there are as many as are counted.
pub fn unready_files_have_an_order()
    ensures first { (world : World) (id : ℕ) (others : List ℕ) → unready_ids world ≡ id ∷ others
        → lowest_unready world ≡ Some id }
    ensures smart { (world : World) → unready_ids world ≡ [] → lowest_unready world ≡ None }
    ensures lowest { (world : World) (id : ℕ) → lowest_unready world ≡ Some id
        → is_unready (file_of world id) ≡ true }
    ensures before { (world : World) (id : ℕ) (other : ℕ) → lowest_unready world ≡ Some id
        → other < id → is_unready (file_of world other) ≡ false }
    ensures none { (world : World) (id : ℕ) → lowest_unready world ≡ None
        → is_unready (file_of world id) ≡ false }
    ensures count { (world : World) → count_of is_unready world ≡ length (unready_ids world) }
{}

/// An intake of the first unready file at its stamp makes that file ready, and no other.
pub fn intake_readies_one()
    ensures { (world : World) (id : ℕ) (stamp : ℕ) (others : List ℕ)
        → unready_ids world ≡ id ∷ others → stamp ≡ stamp_of (file_of world id)
        → unready_ids (after_list world (Intake id stamp ∷ [])) ≡ others }
{}

/// A settle goes on by the unready file with the lowest id: it is over where there is none, ends where the intake of
/// that file is refused, and else goes on after that intake, with fewer unready files.
pub fn a_settle_goes_by_the_lowest()
    ensures over { (history : List Entry) (seat : ℕ) (line : ℕ)
        → lowest_unready (fold history) ≡ None → settled history seat line ≡ all_settled }
    ensures ends { (history : List Entry) (seat : ℕ) (line : ℕ) (id : ℕ) (why : Refusal)
        → lowest_unready (fold history) ≡ Some id
        → option_map (λ (r : ListRefusal). r.why)
        (list_refusal (fold history) (intake_of (fold history) id))
        ≡ Some why
        → settled history seat line ≡ refused_for why }
    ensures goes_on { (history : List Entry) (seat : ℕ) (line : ℕ) (id : ℕ)
        → lowest_unready (fold history) ≡ Some id
        → list_refusal (fold history) (intake_of (fold history) id) ≡ None
        → settled history seat line
        ≡ with_entry (intake_entry history seat line id)
        (settled (history ++ intake_entry history seat line id ∷ []) seat line) }
    ensures fewer { (history : List Entry) (seat : ℕ) (line : ℕ) (id : ℕ)
        → lowest_unready (fold history) ≡ Some id
        → length (unready_ids (fold (history ++ intake_entry history seat line id ∷ [])))
        < length (unready_ids (fold history)) }
{}

/// The intake of an unready file at its stamp is refused only where the history is full.
pub fn intakes_are_refused_where_full()
    ensures reason { (history : List Entry) (id : ℕ) (refusal : ListRefusal)
        → lowest_unready (fold history) ≡ Some id
        → list_refusal (fold history) (intake_of (fold history) id) ≡ Some refusal
        → refusal.why ≡ HistoryFull }
    ensures full { (history : List Entry) (id : ℕ) (refusal : ListRefusal)
        → lowest_unready (fold history) ≡ Some id
        → list_refusal (fold history) (intake_of (fold history) id) ≡ Some refusal
        → max_entries ≤ length history }
{}

/// After a settle that went through no file is unready. One that didn't left a file unready, and a history that is full.
pub fn a_settle_readies_all()
    ensures smart { (history : List Entry) (seat : ℕ) (line : ℕ)
        → (settled history seat line).refused ≡ None
        → lowest_unready (fold (history ++ (settled history seat line).added)) ≡ None }
    ensures unready { (history : List Entry) (seat : ℕ) (line : ℕ) (why : Refusal)
        → (settled history seat line).refused ≡ Some why
        → IsSome (lowest_unready (fold (history ++ (settled history seat line).added))) }
    ensures full { (history : List Entry) (seat : ℕ) (line : ℕ) (why : Refusal)
        → (settled history seat line).refused ≡ Some why
        → max_entries ≤ length (history ++ (settled history seat line).added) }
    ensures reason { (history : List Entry) (seat : ℕ) (line : ℕ) (why : Refusal)
        → (settled history seat line).refused ≡ Some why → why ≡ HistoryFull }
{}
