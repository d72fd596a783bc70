// The laws of classes and rules, each on the contract of a function.
ghost use Rattle.ordering.specs.Laws.{NumbersNameClasses, ClassesHaveNumbers};
ghost use Rattle.ordering.specs.Laws.{NamedRulesNest, EmptyTableOrdersAll, TablesWriteSets, TablesWriteNamedRules};

// A number below 18 is the number of its class.
pub fn numbers_name_classes()
    ensures { NumbersNameClasses }
{}

// A class is the class of its number, which is below 18.
pub fn classes_have_numbers()
    ensures { ClassesHaveNumbers }
{}

// Each named rule orders what the next one orders.
pub fn named_rules_nest()
    ensures { NamedRulesNest }
{}

// The table without a byte orders every pair.
pub fn empty_table_orders_all()
    ensures { EmptyTableOrdersAll }
{}

// The table of any set orders just the pairs of the set.
pub fn tables_write_sets()
    ensures { TablesWriteSets }
{}

// The table that writes out a named rule's set is that rule.
pub fn tables_write_named_rules()
    ensures { TablesWriteNamedRules }
{}
