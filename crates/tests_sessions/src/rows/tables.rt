//! Sessions and what they write.

/// Functions, names and assignments.
pub(super) const VALUES: &str = r"
    :10-4-3
    |9

    :2+3 4 5
    |5 6 7

    :10-4-3
    |9
    :2+3 4 5
    |5 6 7

    :A+A←3
    |6
    :A
    |3
    :A←4
    :(A←5)
    |5

    :A+A←3
    |6
    :A
    |3

    :¯5-3
    |¯8

    :1 2+1 2 3
    |LENGTH ERROR
    |      1 2+1 2 3
    |         ∧

    :B
    |VALUE ERROR
    |      B
    |      ∧

    :9223372036854775807+1
    |LIMIT ERROR
    |      9223372036854775807+1
    |                         ∧

    :'A'+1
    |DOMAIN ERROR
    |      'A'+1
    |         ∧

    :1 2+3 4
    |4 6

    :''+1
    |

    :''+1 2
    |LENGTH ERROR
    |      ''+1 2
    |        ∧

    :'AB'+1 2 3
    |LENGTH ERROR
    |      'AB'+1 2 3
    |          ∧

    :1-'A'
    |DOMAIN ERROR
    |      1-'A'
    |       ∧

    :B←5+÷0×C←4
    |DOMAIN ERROR
    |      B←5+÷0×C←4
    |          ∧
    :C
    |4
    :B
    |VALUE ERROR
    |      B
    |      ∧

    :(B)+B←2
    |4

    :(10-4)-3
    |3

    :2 3×5 7
    |10 21

    :A+A←3
    |6
    :A
    |3
    :(A←4)
    |4
    :A←4 5
    :B←Q+C←7
    |VALUE ERROR
    |      B←Q+C←7
    |        ∧
    :C
    |7
    :B
    |VALUE ERROR
    |      B
    |      ∧
    ";

/// The scalar functions.
pub(super) const SCALARS: &str = r"
    :1 ¯9223372036854775808÷0 ¯1
    |DOMAIN ERROR
    |      1 ¯9223372036854775808÷0 ¯1
    |                            ∧
    :¯9223372036854775808 1÷¯1 0
    |LIMIT ERROR
    |      ¯9223372036854775808 1÷¯1 0
    |                            ∧

    :0÷0
    |1
    :7÷2
    |DOMAIN ERROR
    |      7÷2
    |       ∧
    :3|¯7 7
    |2 1
    :¯3|7
    |¯2
    :0|¯5
    |¯5

    :!20
    |2432902008176640000
    :!21
    |LIMIT ERROR
    |      !21
    |      ∧
    :2!5
    |10
    :¯2*63
    |¯9223372036854775808
    :2*63
    |LIMIT ERROR
    |      2*63
    |       ∧
    :2*¯1
    |DOMAIN ERROR
    |      2*¯1
    |       ∧

    :~0 1 1
    |1 0 0

    :×¯7 0 7
    |¯1 0 1

    :÷2
    |DOMAIN ERROR
    |      ÷2
    |      ∧

    :-¯9223372036854775808
    |LIMIT ERROR
    |      -¯9223372036854775808
    |      ∧

    :5|¯9223372036854775808
    |2

    :1='A'
    |0

    :'AB'='AC'
    |1 0

    :33!66
    |7219428434016265740

    :33!67
    |LIMIT ERROR
    |      33!67
    |        ∧

    :2*9223372036854775807
    |LIMIT ERROR
    |      2*9223372036854775807
    |       ∧

    :¯1*9223372036854775807
    |¯1

    :!9223372036854775807
    |LIMIT ERROR
    |      !9223372036854775807
    |      ∧

    :9223372036854775806!9223372036854775807
    |9223372036854775807

    :4611686018427387904!9223372036854775807
    |LIMIT ERROR
    |      4611686018427387904!9223372036854775807
    |                         ∧

    :+'A'
    |DOMAIN ERROR
    |      +'A'
    |      ∧

    :⌊'AB'
    |DOMAIN ERROR
    |      ⌊'AB'
    |      ∧

    :'A'<'B'
    |DOMAIN ERROR
    |      'A'<'B'
    |         ∧

    :0∧2
    |DOMAIN ERROR
    |      0∧2
    |       ∧

    :1∨5
    |DOMAIN ERROR
    |      1∨5
    |       ∧

    :¯1⍲0
    |DOMAIN ERROR
    |      ¯1⍲0
    |        ∧

    :0*0
    |1
    :0*¯1
    |DOMAIN ERROR
    |      0*¯1
    |       ∧
    :¯1*¯3
    |¯1
    :0*9223372036854775807
    |0
    :¯1*¯9223372036854775808
    |1
    :2*62
    |4611686018427387904

    :0!0
    |1
    :5!3
    |0
    :¯1!3
    |DOMAIN ERROR
    |      ¯1!3
    |        ∧
    :3!¯1
    |DOMAIN ERROR
    |      3!¯1
    |       ∧

    :¯9223372036854775808÷¯1
    |LIMIT ERROR
    |      ¯9223372036854775808÷¯1
    |                          ∧
    :¯9223372036854775808÷0
    |DOMAIN ERROR
    |      ¯9223372036854775808÷0
    |                          ∧
    :0÷5
    |0

    :¯9223372036854775808|9223372036854775807
    |¯1
    :9223372036854775807|¯9223372036854775808
    |9223372036854775806
    :¯1|¯9223372036854775808
    |0
    :0|¯9223372036854775808
    |¯9223372036854775808
    :¯3|¯7
    |¯1

    :!¯1
    |DOMAIN ERROR
    |      !¯1
    |      ∧
    :!21
    |LIMIT ERROR
    |      !21
    |      ∧
    :!0
    |1

    :0-¯9223372036854775808
    |LIMIT ERROR
    |      0-¯9223372036854775808
    |       ∧
    :¯1-¯9223372036854775808
    |9223372036854775807
    :|¯9223372036854775808
    |LIMIT ERROR
    |      |¯9223372036854775808
    |      ∧

    :+3
    |3

    :-3 0
    |¯3 0

    :1 2 3⌊2
    |1 2 2
    :1 2 3⌈2
    |2 2 3

    :0 0 1 1∧0 1 0 1
    |0 0 0 1
    :0 0 1 1∨0 1 0 1
    |0 1 1 1
    :0 0 1 1⍲0 1 0 1
    |1 1 1 0
    :0 0 1 1⍱0 1 0 1
    |1 0 0 0

    :1 2 3<2
    |1 0 0
    :1 2 3≤2
    |1 1 0
    :1 2 3=2
    |0 1 0
    :1 2 3≥2
    |0 1 1
    :1 2 3>2
    |0 0 1
    :1 2 3≠2
    |1 0 1
    ";

/// Ends of lines, blank lines and comments.
pub(super) const LINES: &str = "
    .

    :

    :⍝ A

    :1\r
    |1

    :1+1
    |2
    .2+
    |SYNTAX ERROR
    |      2+
    |       ∧

    .1\r
    |1

    .\r

    .1
    |1

    :  1 2+1 2 3 ⍝ x ⏎
    |LENGTH ERROR
    |        1 2+1 2 3 ⍝ x ⏎
    |           ∧
    ";

/// Numerals and the range.
pub(super) const NUMERALS: &str = r"
    :99999999999999999999 '
    |LIMIT ERROR
    |      99999999999999999999 '
    |      ∧

    :1 2 ¯
    |SYNTAX ERROR
    |      1 2 ¯
    |          ∧

    :¯¯1
    |SYNTAX ERROR
    |      ¯¯1
    |      ∧

    :1¯
    |SYNTAX ERROR
    |      1¯
    |       ∧

    :1 2 9223372036854775808
    |LIMIT ERROR
    |      1 2 9223372036854775808
    |          ∧

    :1 ¯9223372036854775809
    |LIMIT ERROR
    |      1 ¯9223372036854775809
    |        ∧

    :¯9223372036854775808
    |¯9223372036854775808

    :000000000000000000000000000007 ¯0
    |7 0

    :++ 1_
    |SYNTAX ERROR
    |      ++ 1_
    |          ∧

    :1 9223372036854775808 ¯
    |LIMIT ERROR
    |      1 9223372036854775808 ¯
    |        ∧

    :9223372036854775808
    |LIMIT ERROR
    |      9223372036854775808
    |      ∧

    :99999999999999999999
    |LIMIT ERROR
    |      99999999999999999999
    |      ∧

    :¯ 9223372036854775808
    |SYNTAX ERROR
    |      ¯ 9223372036854775808
    |      ∧
    ";

/// Text constants.
pub(super) const TEXTS: &str = r"
    :'AB'
    |AB

    :A←'AB'⍝ N

    :'''
    |SYNTAX ERROR
    |      '''
    |      ∧

    :'A''
    |SYNTAX ERROR
    |      'A''
    |      ∧

    :1,'AB ⍝
    |SYNTAX ERROR
    |      1,'AB ⍝
    |        ∧

    :'⍝'
    |⍝

    :'A' 'B'
    |SYNTAX ERROR
    |      'A' 'B'
    |      ∧

    :''''''
    |''

    :' '
    | ⏎

    :''
    |

    :''''
    |'
    ";

/// Lines that are no statement, each with its caret.
pub(super) const CARETS: &str = r#"
    :3+
    |SYNTAX ERROR
    |      3+
    |       ∧

    :_A
    |SYNTAX ERROR
    |      _A
    |      ∧

    :#
    |SYNTAX ERROR
    |      #
    |      ∧

    :' 99999999999999999999
    |SYNTAX ERROR
    |      ' 99999999999999999999
    |      ∧

    :1;2
    |SYNTAX ERROR
    |      1;2
    |       ∧

    :A+\B
    |SYNTAX ERROR
    |      A+\B
    |      ∧

    :1¯2
    |SYNTAX ERROR
    |      1¯2
    |      ∧

    :1 2¯3 4
    |SYNTAX ERROR
    |      1 2¯3 4
    |      ∧

    :2+1¯2
    |SYNTAX ERROR
    |      2+1¯2
    |        ∧

    :1A
    |SYNTAX ERROR
    |      1A
    |      ∧

    :A¯1
    |SYNTAX ERROR
    |      A¯1
    |      ∧

    :1^2
    |SYNTAX ERROR
    |      1^2
    |       ∧

    :1.5
    |SYNTAX ERROR
    |      1.5
    |       ∧

    :A←3 {
    |SYNTAX ERROR
    |      A←3 {
    |          ∧

    :"A"
    |SYNTAX ERROR
    |      "A"
    |      ∧

    :?6
    |SYNTAX ERROR
    |      ?6
    |      ∧

    :∘
    |SYNTAX ERROR
    |      ∘
    |      ∧

    :  1)
    |SYNTAX ERROR
    |        1)
    |        ∧

    : ←3
    |SYNTAX ERROR
    |       ←3
    |       ∧

    :A←
    |SYNTAX ERROR
    |      A←
    |       ∧

    :A[1
    |SYNTAX ERROR
    |      A[1
    |       ∧

    :[1]
    |SYNTAX ERROR
    |      [1]
    |      ∧

    :()
    |SYNTAX ERROR
    |      ()
    |      ∧

    :A[1;2
    |SYNTAX ERROR
    |      A[1;2
    |         ∧

    :1 2;3
    |SYNTAX ERROR
    |      1 2;3
    |         ∧

    :(A)←3
    |SYNTAX ERROR
    |      (A)←3
    |        ∧

    :(A)[1]←3
    |SYNTAX ERROR
    |      (A)[1]←3
    |        ∧

    :A[1][2]←3
    |SYNTAX ERROR
    |      A[1][2]←3
    |         ∧

    :A∘+B
    |SYNTAX ERROR
    |      A∘+B
    |       ∧

    :A+.B
    |SYNTAX ERROR
    |      A+.B
    |        ∧

    :A∘.⍴B
    |SYNTAX ERROR
    |      A∘.⍴B
    |        ∧

    :∘.+B
    |SYNTAX ERROR
    |      ∘.+B
    |      ∧

    :A+[1]B
    |SYNTAX ERROR
    |      A+[1]B
    |       ∧

    :,[1]B
    |SYNTAX ERROR
    |      ,[1]B
    |      ∧

    :⍋[1]B
    |SYNTAX ERROR
    |      ⍋[1]B
    |      ∧

    :~/B
    |SYNTAX ERROR
    |      ~/B
    |      ∧

    :⍴/B
    |SYNTAX ERROR
    |      ⍴/B
    |      ∧

    :/B
    |SYNTAX ERROR
    |      /B
    |      ∧

    :A⌽[1;2]B
    |SYNTAX ERROR
    |      A⌽[1;2]B
    |          ∧

    :A⌽[]B
    |SYNTAX ERROR
    |      A⌽[]B
    |        ∧

    :1+2)
    |SYNTAX ERROR
    |      1+2)
    |      ∧

    :(1)2
    |SYNTAX ERROR
    |      (1)2
    |        ∧

    :A B
    |SYNTAX ERROR
    |      A B
    |      ∧

    :A+.×/B
    |SYNTAX ERROR
    |      A+.×/B
    |        ∧

    :'A'←3
    |SYNTAX ERROR
    |      'A'←3
    |      ∧

    :A[(1]
    |SYNTAX ERROR
    |      A[(1]
    |        ∧

    :3+
    |SYNTAX ERROR
    |      3+
    |       ∧
    :(1+2
    |SYNTAX ERROR
    |      (1+2
    |      ∧
    :1)
    |SYNTAX ERROR
    |      1)
    |      ∧
    :2+<3
    |SYNTAX ERROR
    |      2+<3
    |       ∧
    :3←4
    |SYNTAX ERROR
    |      3←4
    |      ∧
    :A+/B
    |SYNTAX ERROR
    |      A+/B
    |      ∧
    :1 ¯ 2
    |SYNTAX ERROR
    |      1 ¯ 2
    |        ∧
    :'AB
    |SYNTAX ERROR
    |      'AB
    |      ∧

    :+\
    |SYNTAX ERROR
    |      +\
    |       ∧

    :1  ;3
    |SYNTAX ERROR
    |      1  ;3
    |         ∧

    :1  ←3
    |SYNTAX ERROR
    |      1  ←3
    |      ∧
    "#;

/// Operands have values before a function is looked at, and before its axis is judged.
pub(super) const OPERANDS: &str = r"
    :⍴3
    |

    :1 2[1]
    |1

    :Q[B]←2
    |VALUE ERROR
    |      Q[B]←2
    |        ∧

    :Q[1]←B
    |VALUE ERROR
    |      Q[1]←B
    |           ∧

    :⍴B
    |VALUE ERROR
    |      ⍴B
    |       ∧

    :C⍴A←3
    |VALUE ERROR
    |      C⍴A←3
    |      ∧
    :A
    |3

    :⌽[9]1 2
    |INDEX ERROR
    |      ⌽[9]1 2
    |      ∧

    :⌽[B]1 2
    |VALUE ERROR
    |      ⌽[B]1 2
    |        ∧

    :B[1]
    |VALUE ERROR
    |      B[1]
    |      ∧

    :1÷B
    |VALUE ERROR
    |      1÷B
    |        ∧

    :A←4 5
    :A[;]
    |RANK ERROR
    |      A[;]
    |       ∧

    :B⍴A←3
    |VALUE ERROR
    |      B⍴A←3
    |      ∧
    :A
    |3

    :Q[D;D←2]
    |VALUE ERROR
    |      Q[D;D←2]
    |      ∧
    :D
    |2

    :Q[C←7]←B
    |VALUE ERROR
    |      Q[C←7]←B
    |             ∧
    :C
    |VALUE ERROR
    |      C
    |      ∧

    :A⌽[C←1]B←1 2
    |VALUE ERROR
    |      A⌽[C←1]B←1 2
    |      ∧
    :B
    |1 2
    :C
    |1
    ";

/// Commands.
pub(super) const COMMANDS: &str = r"
    :)ORIGIN 00
    |WAS 1
    : )ORIGIN 1
    |WAS 0

    :)ORIGIN
    |INCORRECT COMMAND
    :)WIDTH 29
    |INCORRECT COMMAND
    :) CLEAR
    |INCORRECT COMMAND
    :)CLEAR 1
    |INCORRECT COMMAND

    :)○
    |CHARACTER ERROR
    |      )
    |       ∧

    :)CLEAR ⍝ x
    |INCORRECT COMMAND

    :)CLEAR⍝
    |INCORRECT COMMAND

    :)ORIGIN  01 ⏎
    |WAS 1

    :)ORIGIN0
    |INCORRECT COMMAND

    :)ORIGIN 1 1
    |INCORRECT COMMAND

    :)
    |INCORRECT COMMAND

    :)OFF 1
    |INCORRECT COMMAND
    :1
    |1

    :)WIDTH 0000000000000000000000000130
    |WAS 120
    :)WIDTH 130
    |WAS 130

    :)WIDTH 9999999999999999999999999999999999999999
    |INCORRECT COMMAND

    :)WIDTH ¯60
    |INCORRECT COMMAND

    :  )CLEAR'
    |INCORRECT COMMAND

    :)'
    |INCORRECT COMMAND

    :)¯
    |INCORRECT COMMAND

    :)OFF
    :#

    :A←3
    :)ORIGIN 0
    |WAS 1
    :)WIDTH 60
    |WAS 120
    :)CLEAR
    |CLEAR WS
    :A
    |VALUE ERROR
    |      A
    |      ∧
    :)ORIGIN 1
    |WAS 1
    :)WIDTH 120
    |WAS 120

    :)WIDTH 30
    |WAS 120
    :1 2 3 4 5 6 7 8 9 10 11 12 13 14 15 16 17 18 19 20
    |1 2 3 4 5 6 7 8 9 10 11 12 13
    |      14 15 16 17 18 19 20

    :)ORIGIN 0
    |WAS 1
    :)ORIGIN 0
    |WAS 0
    :)ORIGIN 2
    |INCORRECT COMMAND
    :)width 60
    |INCORRECT COMMAND
    :)CLEAR
    |CLEAR WS
    :)OFF
    :1

    :) ⏎
    |INCORRECT COMMAND
    :)A←3
    |INCORRECT COMMAND
    :)CLEAR'
    |INCORRECT COMMAND
    :)CLEARS
    |INCORRECT COMMAND
    :)OF
    |INCORRECT COMMAND
    :)off
    |INCORRECT COMMAND
    :)ORIGIN ⏎
    |INCORRECT COMMAND
    :)ORIGIN 256
    |INCORRECT COMMAND
    :)ORIGIN 1A
    |INCORRECT COMMAND
    :)ORIGIN ¯1
    |INCORRECT COMMAND
    :)origin 1
    |INCORRECT COMMAND
    :)WIDTH
    |INCORRECT COMMAND
    :)WIDTH 131
    |INCORRECT COMMAND
    :)WIDTH 286
    |INCORRECT COMMAND
    :)WIDTH60
    |INCORRECT COMMAND

    :)WIDTH 30
    |WAS 120
    :1 2 3 4 5 6 7 8 9 10 11 12 13 14
    |1 2 3 4 5 6 7 8 9 10 11 12 13
    |      14
    ";

/// An unlisted symbol is judged before all else.
pub(super) const UNLISTED: &str = "
    :\u{feff}
    |CHARACTER ERROR
    |      ⏎
    |      ∧

    :1\t2
    |CHARACTER ERROR
    |      1
    |       ∧

    :1\r\r
    |CHARACTER ERROR
    |      1
    |       ∧

    :1 ⍝ ○
    |CHARACTER ERROR
    |      1 ⍝ ⏎
    |          ∧

    :'○'
    |CHARACTER ERROR
    |      '
    |       ∧

    :# ○
    |CHARACTER ERROR
    |      # ⏎
    |        ∧

    :'⍴×'○
    |CHARACTER ERROR
    |      '⍴×'
    |          ∧

    :2○3
    |CHARACTER ERROR
    |      2
    |       ∧

    :2○3
    |CHARACTER ERROR
    |      2
    |       ∧
    :2+3 4 5
    |5 6 7
    ";
