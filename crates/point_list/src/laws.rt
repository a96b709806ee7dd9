//! Laws of the definitions alone.

ghost use Rattle.std.specs.Prelude.{◌≡◌, ◌⊎◌, ◌↔◌, [], ◌∷◌, ℕ, All, List, Bool, Ok, Err, Some};
ghost use Rattle.mb_pdu.specs.declared.table.Table.{Table};
ghost use Rattle.mb_pdu.specs.Tables.{table_name};
ghost use Rattle.sunspec.specs.declared.point_type.PointType.{PointType};
ghost use Rattle.sunspec.specs.declared.word_order.WordOrder.{WordOrder};
ghost use Rattle.sunspec.specs.WordOrder.{order_name};
ghost use Rattle.point_list.specs.Columns.{Record, order_of, role_name, role_of, table_of};
ghost use Rattle.point_list.specs.Edition.{Edition, First, Second, header, header_with_words};
ghost use Rattle.point_list.specs.declared.point.Role.{Role};
ghost use Rattle.point_list.specs.Lists.{AreRows, IsFaultOf};
ghost use Rattle.point_list.specs.ListMeaning.{list_meaning, missing_header};
ghost use Rattle.point_list.specs.declared.point.ListRow.{ListRow};
ghost use Rattle.point_list.specs.declared.error.ListError.{ListError};

/// In an edition a list has one meaning, `list_meaning`, which can be computed from its records: its
/// rows where each record is faultless, and otherwise its first fault.
pub fn one_meaning()
    ensures rows { (edition : Edition) (known : List ℕ → Bool) (list : List Record) (rows : List ListRow)
        → AreRows edition known list rows → list_meaning edition known list ≡ Ok rows }
    ensures fault { (edition : Edition) (known : List ℕ → Bool) (list : List Record) (e : ListError)
        → IsFaultOf edition known list e → list_meaning edition known list ≡ Err e }
{}

/// A list whose header has no orders means the same in both editions, and each of its points has the
/// most significant register first. In the first edition one that has them has no header.
pub fn plain_lists()
    ensures same { (known : List ℕ → Bool) (body : List Record) → list_meaning First known (header ∷ body) ≡ list_meaning Second known (header ∷ body) }
    ensures unknown { (known : List ℕ → Bool) (body : List Record) → list_meaning First known (header_with_words ∷ body) ≡ Err missing_header }
    ensures big { (edition : Edition) (known : List ℕ → Bool) (body : List Record) (rows : List ListRow)
        → AreRows edition known (header ∷ body) rows → All (λ (x : ListRow). x.point.order ≡ WordOrder.Big) rows }
{}

/// The words that a table, a role and an order print as are those that a list is read by, and no others
/// are, but that an order may be left out.
pub fn printed_words()
    ensures tables { (text : List ℕ) (table : Table) → (table_of text ≡ Some table) ↔ (text ≡ table_name table) }
    ensures roles { (table : Table) (kind : PointType) (text : List ℕ) (role : Role) → role_of table kind text ≡ Some role → text ≡ role_name role }
    ensures orders { (kind : PointType) (text : List ℕ) (order : WordOrder) → order_of kind text ≡ Some order
        → (text ≡ order_name order) ⊎ ((text ≡ []) × (order ≡ WordOrder.Big)) }
{}
