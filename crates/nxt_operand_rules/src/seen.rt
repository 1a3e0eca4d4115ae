// What is seen of an operand, and the tests by it.

ghost use Rattle.std.specs.Prelude.{◌≡◌};
ghost use Rattle.nxt_types.specs.Shapes.{is_number as is_number_shape, is_numbers as is_numbers_shape};
ghost use Rattle.nxt_types.specs.Calls.{is_text as is_text_shape};
ghost use Rattle.nxt_types.specs.OperandRules.{Sort, are_alike as are_alike_shapes, is_absent as is_absent_sort, is_group, is_list as is_list_shape, is_mutex as is_mutex_shape, is_plain as is_plain_shape, is_value as is_value_shape, shape_of, word_of};
ghost use Rattle.nxt_operand_rules.specs.SeenOf.{seen};

/// What is seen of an operand (Executable File Specification, "Bytecode Instructions").
#[derive(Clone, Copy, PartialEq, Eq, Debug)]
pub enum Seen {
    /// A number of any kind.
    Number,
    /// A list of ubyte.
    Text,
    /// A list of other numbers.
    Numbers,
    /// A list of anything else.
    List,
    /// A cluster of any members.
    Cluster,
    /// A mutex.
    Mutex,
    /// Nothing that holds a value.
    Nothing,
    /// A number that is no name.
    Word(u16),
    /// Left out.
    Absent,
}

impl Seen {
    /// Whether it is a number.
    #[tactic(auto, using(crate::proofs::SeenTests::number_seen))]
    pub fn is_number(self) -> bool
        ensures { (o : Sort) → self ≡ seen o → result ≡ is_number_shape (shape_of o) }
    {
        matches!(self, Seen::Number)
    }

    /// Whether it is a list of ubyte.
    #[tactic(auto, using(crate::proofs::SeenTests::text_seen))]
    pub fn is_text(self) -> bool
        ensures { (o : Sort) → self ≡ seen o → result ≡ is_text_shape (shape_of o) }
    {
        matches!(self, Seen::Text)
    }

    /// Whether it is a list of numbers.
    #[tactic(auto, using(crate::proofs::SeenTests::numbers_seen))]
    pub(crate) fn is_numbers(self) -> bool
        ensures { (o : Sort) → self ≡ seen o → result ≡ is_numbers_shape (shape_of o) }
    {
        matches!(self, Seen::Text | Seen::Numbers)
    }

    #[tactic(auto, using(crate::proofs::SeenTests::list_seen))]
    pub(crate) fn is_list(self) -> bool
        ensures { (o : Sort) → self ≡ seen o → result ≡ is_list_shape (shape_of o) }
    {
        matches!(self, Seen::Text | Seen::Numbers | Seen::List)
    }

    #[tactic(auto, using(crate::proofs::SeenTests::cluster_seen))]
    pub(crate) fn is_cluster(self) -> bool
        ensures { (o : Sort) → self ≡ seen o → result ≡ is_group (shape_of o) }
    {
        matches!(self, Seen::Cluster)
    }

    #[tactic(auto, using(crate::proofs::SeenTests::mutex_seen))]
    pub(crate) fn is_mutex(self) -> bool
        ensures { (o : Sort) → self ≡ seen o → result ≡ is_mutex_shape (shape_of o) }
    {
        matches!(self, Seen::Mutex)
    }

    /// Whether it is a number, a list or a cluster.
    #[tactic(auto, using(crate::proofs::SeenTests::value_seen))]
    pub(crate) fn is_value(self) -> bool
        ensures { (o : Sort) → self ≡ seen o → result ≡ is_value_shape (shape_of o) }
    {
        self.is_number() || self.is_list() || self.is_cluster()
    }

    /// Whether it is a number, or a list of numbers.
    pub(crate) fn is_plain(self) -> bool
        ensures { (o : Sort) → self ≡ seen o → result ≡ is_plain_shape (shape_of o) }
    {
        self.is_number() || self.is_numbers()
    }

    /// Whether both are numbers, or both lists of numbers.
    pub(crate) fn is_like(self, other: Seen) -> bool
        ensures { (o p : Sort) → self ≡ seen o → other ≡ seen p → result ≡ are_alike_shapes (shape_of o) (shape_of p) }
    {
        (self.is_number() && other.is_number()) || (self.is_numbers() && other.is_numbers())
    }

    /// Whether it is left out.
    #[tactic(auto, using(crate::proofs::SeenTests::absent_seen))]
    pub(crate) fn is_absent(self) -> bool
        ensures { (o : Sort) → self ≡ seen o → result ≡ is_absent_sort o }
    {
        matches!(self, Seen::Absent)
    }

    /// The number that is no name; 0 where it is none.
    #[tactic(auto, using(crate::proofs::SeenTests::word_seen))]
    pub fn word(self) -> u16
        ensures { (o : Sort) → self ≡ seen o → result ≡ word_of o }
    {
        match self {
            Seen::Word(number) => number,
            _ => 0,
        }
    }
}
