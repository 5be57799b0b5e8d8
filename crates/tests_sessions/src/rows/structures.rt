//! Sessions of the structural functions, of indexes and of axes, and what they write.

/// Sessions of several functions.
pub(super) const WORKED: &str = r"
    :2 3⍴⍳6
    |1 2 3
    |4 5 6
    :)ORIGIN 0
    |WAS 1
    :⍳3
    |0 1 2
    :)ORIGIN 0
    |WAS 0
    :)ORIGIN 2
    |INCORRECT COMMAND
    :)width 60
    |INCORRECT COMMAND
    :)CLEAR
    |CLEAR WS
    :⍳3
    |1 2 3
    :)OFF
    :1

    :''
    |
    :⍴''
    |0
    :3↑'AB'
    |AB ⏎
    :¯3↑5 6
    |0 5 6
    :''''
    |'

    :A←2 2⍴⍳4
    :A[2;]←9
    :A
    |1 2
    |9 9
    :A[3;1]
    |INDEX ERROR
    |      A[3;1]
    |       ∧
    :(⍳3)[1;1]
    |RANK ERROR
    |      (⍳3)[1;1]
    |          ∧
    :2000000000⍴0
    |LIMIT ERROR
    |      2000000000⍴0
    |                ∧
    :9223372036854775808
    |LIMIT ERROR
    |      9223372036854775808
    |      ∧

    :2000000000⍴0
    |LIMIT ERROR
    |      2000000000⍴0
    |                ∧

    :)WIDTH 30
    |WAS 120
    :⍳20
    |1 2 3 4 5 6 7 8 9 10 11 12 13
    |      14 15 16 17 18 19 20
    :40⍴'ABCDEFGHIJ'
    |ABCDEFGHIJABCDEFGHIJABCDEFGHIJ
    |      ABCDEFGHIJ

    :2 2 2⍴⍳8
    |1 2
    |3 4
    |
    |5 6
    |7 8
    :2 2⍴1 ¯10 100 2
    |  1 ¯10
    |100   2
    :0 3⍴0

    :1 2+1 2 3
    |LENGTH ERROR
    |      1 2+1 2 3
    |         ∧
    :(2 2⍴0)+1 2
    |RANK ERROR
    |      (2 2⍴0)+1 2
    |             ∧
    :1,'A'
    |DOMAIN ERROR
    |      1,'A'
    |       ∧

    :⍋3 1 2 1
    |2 4 3 1
    :⍒3 1 2 1
    |1 3 2 4
    :3 1 4⍳4 9
    |3 4
    :'AB'∊'BC'
    |0 1

    :⍉2 3⍴⍳6
    |1 4
    |2 5
    |3 6
    :1 1⍉3 3⍴⍳9
    |1 5 9
    :2⌽⍳5
    |3 4 5 1 2
    :1 0 1/'ABC'
    |AC
    :1 0 1\'AB'
    |A B

    :(2 2⍴1 2 3 4)+,10
    |11 12
    |13 14
    :⍴(,1)+1 1⍴2
    |1 1
    :1 2+2 2⍴0
    |RANK ERROR
    |      1 2+2 2⍴0
    |         ∧
    :(2 3⍴0)+3 2⍴0
    |LENGTH ERROR
    |      (2 3⍴0)+3 2⍴0
    |             ∧
    :2 2 2⍴⍳8
    |1 2
    |3 4
    |
    |5 6
    |7 8

    :(2 2⍴⍳4),9
    |1 2 9
    |3 4 9

    :(2 2⍴⍳4),[1]8 9
    |1 2
    |3 4
    |8 9

    :1⌽[1]2 3⍴⍳6
    |4 5 6
    |1 2 3

    :⊖2 2⍴⍳4
    |3 4
    |1 2

    :1 0 1⌿3 2⍴⍳6
    |1 2
    |5 6

    :1 2 1⍉2 3 2⍴⍳12
    |1  3  5
    |8 10 12

    :)WIDTH 30
    |WAS 120
    :100,⍳13
    |100 1 2 3 4 5 6 7 8 9 10 11 12
    |      13

    :¯5↓⍳3
    |
    :⍴¯5↓⍳3
    |0

    :1↑⍴'A'
    |0

    :⌽[3]2 2⍴0
    |INDEX ERROR
    |      ⌽[3]2 2⍴0
    |      ∧

    :2↑3 3⍴0
    |LENGTH ERROR
    |      2↑3 3⍴0
    |       ∧

    :⍳¯1
    |DOMAIN ERROR
    |      ⍳¯1
    |      ∧

    :)ORIGIN 0
    |WAS 1
    :⌽[0]2 2⍴⍳4
    |2 3
    |0 1

    :A←⍳5
    :A[2 2]←7 9
    :A
    |1 9 3 4 5

    :(⍳5)[2 3⍴1]
    |1 1 1
    |1 1 1

    :'ABC'[3 1]
    |CA

    :M←2 2⍴⍳4
    :M[B;B←2]
    |4

    :Q[1]←2
    |VALUE ERROR
    |      Q[1]←2
    |      ∧

    :A←⍳3
    :A[4]←A[5]
    |INDEX ERROR
    |      A[4]←A[5]
    |            ∧
    :A[4]←1
    |INDEX ERROR
    |      A[4]←1
    |          ∧
    :A[1]←'X'
    |DOMAIN ERROR
    |      A[1]←'X'
    |          ∧
    :A
    |1 2 3

    :)ORIGIN 0
    |WAS 1
    :'ABC'⍳'CAX'
    |2 0 3

    :⍋''
    |

    :⍋2 2⍴0
    |RANK ERROR
    |      ⍋2 2⍴0
    |      ∧

    :B←(C←4)+⍳3
    :C
    |4
    :B
    |5 6 7

    :A←5
    :A←A+⍳1000
    :⍴A
    |1000
    ";

/// Scalar functions of arrays of several axes, and empty results.
pub(super) const EXTENDED: &str = r"
    :3↑'A'+⍳0
    |0 0 0

    :3↑+''
    |0 0 0

    :3↑''=''
    |0 0 0

    :1 2+2 2⍴0
    |RANK ERROR
    |      1 2+2 2⍴0
    |         ∧

    :⍴(1 1 1⍴5)+1 2 3
    |3

    :⍴(1 1⍴5)+,3
    |1 1

    :⍴(1 1⍴5)+⍳0
    |0

    :⍴5+,3
    |1

    :⍴(2 0⍴0)+1 1 1⍴5
    |2 0
    ";

/// Axis arguments.
pub(super) const AXES: &str = r"
    :⌽[1 1⍴1]⍳3
    |RANK ERROR
    |      ⌽[1 1⍴1]⍳3
    |      ∧

    :⌽['']⍳3
    |LENGTH ERROR
    |      ⌽['']⍳3
    |      ∧

    :⌽['A']⍳3
    |DOMAIN ERROR
    |      ⌽['A']⍳3
    |      ∧

    :⌽[,1]⍳3
    |3 2 1

    :⌽[1]5
    |INDEX ERROR
    |      ⌽[1]5
    |      ∧

    :⌽['A']5
    |DOMAIN ERROR
    |      ⌽['A']5
    |      ∧

    :1 2⌽[2]⍳3
    |INDEX ERROR
    |      1 2⌽[2]⍳3
    |         ∧

    :1,[2]2 3⍴0
    |1 0 0 0
    |1 0 0 0

    :1,[1]2
    |1 2

    :1,[2]2
    |INDEX ERROR
    |      1,[2]2
    |       ∧

    :1 0/[1]5
    |5

    :1 0/[2]5
    |INDEX ERROR
    |      1 0/[2]5
    |         ∧

    :(⍳2),[9]2 2 2⍴0
    |INDEX ERROR
    |      (⍳2),[9]2 2 2⍴0
    |          ∧

    :⌽[¯9223372036854775808]⍳3
    |INDEX ERROR
    |      ⌽[¯9223372036854775808]⍳3
    |      ∧

    :⊖[2]2 3⍴⍳6
    |3 2 1
    |6 5 4

    :1 0⌿[2]2 2⍴⍳4
    |1
    |3

    :1⊖[2]2 3⍴⍳6
    |2 3 1
    |5 6 4

    :⌽[1÷0]1 2
    |DOMAIN ERROR
    |      ⌽[1÷0]1 2
    |         ∧
    ";

/// Other shapes, and numbers from the origin.
pub(super) const BUILT: &str = r"
    :(⍳0)⍴⍳0
    |LENGTH ERROR
    |      (⍳0)⍴⍳0
    |          ∧

    :''⍴5
    |5

    :3↑0⍴'A'
    |   ⏎

    :¯1 1073741825⍴0
    |DOMAIN ERROR
    |      ¯1 1073741825⍴0
    |                   ∧

    :1073741825⍴⍳0
    |LIMIT ERROR
    |      1073741825⍴⍳0
    |                ∧

    :'A'⍴5
    |DOMAIN ERROR
    |      'A'⍴5
    |         ∧

    :(1 1⍴1)⍴5
    |RANK ERROR
    |      (1 1⍴1)⍴5
    |             ∧

    :2 0⍴⍳0

    :⍳''
    |LENGTH ERROR
    |      ⍳''
    |      ∧

    :⍳'A'
    |DOMAIN ERROR
    |      ⍳'A'
    |      ∧

    :⍳'AB'
    |LENGTH ERROR
    |      ⍳'AB'
    |      ∧

    :⍳1 1⍴3
    |RANK ERROR
    |      ⍳1 1⍴3
    |      ∧

    :⍳,3
    |1 2 3

    :⍳1073741825
    |LIMIT ERROR
    |      ⍳1073741825
    |      ∧
    ";

/// Joined arrays.
pub(super) const JOINED: &str = r"
    :(,5),2 2⍴0
    |LENGTH ERROR
    |      (,5),2 2⍴0
    |          ∧

    :1 2,2 3⍴0
    |1 0 0 0
    |2 0 0 0

    :1 2 3,[1]2 3⍴0
    |1 2 3
    |0 0 0
    |0 0 0

    :1 2,2 2 2⍴0
    |RANK ERROR
    |      1 2,2 2 2⍴0
    |         ∧

    :5,2 2 2⍴0
    |5 0 0
    |5 0 0
    |
    |5 0 0
    |5 0 0

    :⍴5,[1]0 3⍴0
    |1 3

    :3↑'',⍳0
    |   ⏎

    :3↑(⍳0),''
    |0 0 0

    :(⍳0),'A'
    |A

    :'',5
    |5

    :3↑,5,0 3⍴' '
    |0 0 0

    :3↑,(0 3⍴' '),5
    |0 0 0

    :(2 2⍴0),'ABC'
    |LENGTH ERROR
    |      (2 2⍴0),'ABC'
    |             ∧

    :(2 2⍴0),'AB'
    |DOMAIN ERROR
    |      (2 2⍴0),'AB'
    |             ∧

    :(0 1073741824⍴0),0 1⍴0
    |LIMIT ERROR
    |      (0 1073741824⍴0),0 1⍴0
    |                      ∧
    ";

/// First and last elements.
pub(super) const TAKEN: &str = r"
    :3↑''
    |   ⏎

    :2↑⍳0
    |0 0

    :'AB'↑2 3⍴0
    |DOMAIN ERROR
    |      'AB'↑2 3⍴0
    |          ∧

    :'AB'↑⍳3
    |LENGTH ERROR
    |      'AB'↑⍳3
    |          ∧

    :¯9223372036854775808↑⍳3
    |LIMIT ERROR
    |      ¯9223372036854775808↑⍳3
    |                          ∧

    :⍴¯9223372036854775808↓⍳3
    |0

    :⍴0 1073741824↑0 0⍴0
    |0 1073741824

    :1 1073741825↑0 0⍴0
    |LIMIT ERROR
    |      1 1073741825↑0 0⍴0
    |                  ∧

    :3↑5
    |5 0 0

    :2 2↑5
    |5 0
    |0 0

    :(⍳0)↑5
    |5

    :''↓'A'
    |A

    :⍴1↓5
    |0

    :⍴0 0↓5
    |1 1

    :(1 1⍴1)↑5
    |RANK ERROR
    |      (1 1⍴1)↑5
    |             ∧
    ";

/// Reversed, rotated and transposed arrays.
pub(super) const MOVED: &str = r"
    :(1 1⍴1)⌽⍳3
    |2 3 1

    :1 2⌽⍳3
    |RANK ERROR
    |      1 2⌽⍳3
    |         ∧

    :1 2⌽5
    |RANK ERROR
    |      1 2⌽5
    |         ∧

    :'A'⌽5
    |DOMAIN ERROR
    |      'A'⌽5
    |         ∧

    :'A'⌽⍳0
    |DOMAIN ERROR
    |      'A'⌽⍳0
    |         ∧

    :(⍳0)⌽⍳3
    |RANK ERROR
    |      (⍳0)⌽⍳3
    |          ∧

    :(⍳0)⌽0 3⍴0

    :''⌽0 3⍴0

    :1 2 3⌽2 3⍴⍳6
    |LENGTH ERROR
    |      1 2 3⌽2 3⍴⍳6
    |           ∧

    :'ABC'⌽2 3⍴⍳6
    |LENGTH ERROR
    |      'ABC'⌽2 3⍴⍳6
    |           ∧

    :1 2⌽2 3⍴⍳6
    |2 3 1
    |6 4 5

    :¯9223372036854775808⌽⍳3
    |2 3 1

    :(,1)⌽5
    |5

    :(⍳0)⍉5
    |5

    :''⍉5
    |5

    :1⍉5
    |LENGTH ERROR
    |      1⍉5
    |       ∧

    :2⍉⍳3
    |DOMAIN ERROR
    |      2⍉⍳3
    |       ∧

    :1 3⍉2 2⍴0
    |DOMAIN ERROR
    |      1 3⍉2 2⍴0
    |         ∧

    :0 1⍉2 2⍴0
    |DOMAIN ERROR
    |      0 1⍉2 2⍴0
    |         ∧

    :'AB'⍉2 2⍴0
    |DOMAIN ERROR
    |      'AB'⍉2 2⍴0
    |          ∧

    :1⍉⍳3
    |1 2 3

    :⍴2 1 1⍉2 3 4⍴0
    |3 2
    ";

/// Compressed and expanded arrays.
pub(super) const CHOSEN: &str = r"
    :1 2/⍳3
    |LENGTH ERROR
    |      1 2/⍳3
    |         ∧

    :1\1 2
    |LENGTH ERROR
    |      1\1 2
    |       ∧

    :0\5
    |0

    :1 0 1\5
    |5 0 5

    :1 1\,5
    |LENGTH ERROR
    |      1 1\,5
    |         ∧

    :2 1\⍳3
    |DOMAIN ERROR
    |      2 1\⍳3
    |         ∧

    :''\5
    |

    :0 0\⍳0
    |0 0

    :0 0\''
    |  ⏎

    :1 0\[1]1 2⍴3 4
    |3 4
    |0 0

    :0 0⍀0 1073741824⍴0
    |LIMIT ERROR
    |      0 0⍀0 1073741824⍴0
    |         ∧

    :3↑0/'AB'
    |   ⏎
    ";

/// Replicated arrays.
pub(super) const REPLICATED: &str = r"
    :2 0 3/'ABC'
    |AACCC

    :2/⍳3
    |1 1 2 2 3 3

    :3/5
    |5 5 5

    :1 2/5
    |5 5 5

    :1 2/⍳2
    |1 2 2

    :2⌿2 2⍴⍳4
    |1 2
    |1 2
    |3 4
    |3 4

    :1 0 1/'ABC'
    |AC

    :1 ¯1/5 6
    |DOMAIN ERROR
    |      1 ¯1/5 6
    |          ∧

    :1073741825/0
    |LIMIT ERROR
    |      1073741825/0
    |                ∧

    :1073741825/⍳0
    |

    :1073741824 1073741824⌿2 0⍴0
    |LIMIT ERROR
    |      1073741824 1073741824⌿2 0⍴0
    |                           ∧

    :9223372036854775807 9223372036854775807/1 2
    |LIMIT ERROR
    |      9223372036854775807 9223372036854775807/1 2
    |                                             ∧

    :1 ¯1/5 6 7
    |LENGTH ERROR
    |      1 ¯1/5 6 7
    |          ∧

    :'AB'/5 6
    |DOMAIN ERROR
    |      'AB'/5 6
    |          ∧

    :'A'/⍳0
    |DOMAIN ERROR
    |      'A'/⍳0
    |         ∧

    :(1 1⍴1)/5
    |RANK ERROR
    |      (1 1⍴1)/5
    |             ∧

    :(⍳0)/5
    |

    :2/⍳0
    |

    :3↑2/''
    |   ⏎

    :0 1/5
    |5

    :(,2)/⍳2
    |1 1 2 2

    :(⍳0)/⍳0
    |

    :''/⍳0
    |

    :⍴2/0 3⍴0
    |0 6

    :1073741824/0 2⍴0
    |LIMIT ERROR
    |      1073741824/0 2⍴0
    |                ∧

    :536870912/0 2⍴0

    :¯1/⍳0
    |DOMAIN ERROR
    |      ¯1/⍳0
    |        ∧

    :1073741825 ¯1/5 6
    |DOMAIN ERROR
    |      1073741825 ¯1/5 6
    |                   ∧

    :+/1000/⍳100
    |5050000

    :⍴(⍳1000)/⍳1000
    |500500

    :+/(⍳1000)/⍳1000
    |333833500
    ";

/// Searches and grades.
pub(super) const FOUND: &str = r"
    :5⍳5
    |RANK ERROR
    |      5⍳5
    |       ∧

    :''⍳5
    |1

    :1 2⍳'A'
    |3

    :'A'∊1 2
    |0

    :⍋5
    |RANK ERROR
    |      ⍋5
    |      ∧

    :⍋'AB'
    |DOMAIN ERROR
    |      ⍋'AB'
    |      ∧

    :3↑⍋''
    |0 0 0

    :⍋2 2⍴'A'
    |RANK ERROR
    |      ⍋2 2⍴'A'
    |      ∧
    ";

/// Indexes and indexed assignments.
pub(super) const INDEXED: &str = r"
    :Q⌽[9]1 2
    |VALUE ERROR
    |      Q⌽[9]1 2
    |      ∧

    :1⌽[9]1 2
    |INDEX ERROR
    |      1⌽[9]1 2
    |       ∧

    :Q[1÷0]
    |DOMAIN ERROR
    |      Q[1÷0]
    |         ∧

    :Q[X←1]←2
    |VALUE ERROR
    |      Q[X←1]←2
    |      ∧
    :X
    |1

    :A[X;X←1]←2
    |VALUE ERROR
    |      A[X;X←1]←2
    |      ∧

    :A←2 2⍴⍳4
    :A[A←1]
    |RANK ERROR
    |      A[A←1]
    |       ∧
    :A
    |1

    :A[1 2]←A←5 6
    :A
    |5 6

    :A[Q;R]←1÷0
    |DOMAIN ERROR
    |      A[Q;R]←1÷0
    |              ∧

    :A←⍳3
    :(A[2]←9)+A
    |10 11 12

    :A←⍳3
    :(A[1 2]←7)
    |7
    :1+A[3]←5 6
    |RANK ERROR
    |      1+A[3]←5 6
    |            ∧
    :A[1 3]←8 9
    :A
    |8 7 9
    :B←A[2]←4
    :B
    |4

    :A←2 2⍴⍳4
    :A[1;1 2]←1 2⍴5 6
    |RANK ERROR
    |      A[1;1 2]←1 2⍴5 6
    |              ∧
    :A[1;]←1 1 1⍴5
    :A
    |5 5
    |3 4
    :A[1;1]←5 6
    |RANK ERROR
    |      A[1;1]←5 6
    |            ∧
    :A[1 2;1]←5 6 7
    |LENGTH ERROR
    |      A[1 2;1]←5 6 7
    |              ∧
    :A[1 2;1]←'ABC'
    |LENGTH ERROR
    |      A[1 2;1]←'ABC'
    |              ∧
    :A[⍳0;1]←'X'
    |DOMAIN ERROR
    |      A[⍳0;1]←'X'
    |             ∧
    :A[⍳0;1]←''
    :A[1;,1]←⍳0
    |LENGTH ERROR
    |      A[1;,1]←⍳0
    |             ∧
    :A[1;1]←⍳0
    |RANK ERROR
    |      A[1;1]←⍳0
    |            ∧
    :A[1 1;2]←8 9
    :A
    |5 9
    |3 4

    :A←2 2⍴⍳4
    :A['A';9]
    |DOMAIN ERROR
    |      A['A';9]
    |       ∧
    :A[9;'A']
    |DOMAIN ERROR
    |      A[9;'A']
    |       ∧
    :A['A']
    |RANK ERROR
    |      A['A']
    |       ∧
    :⍴A['';]
    |0 2
    :A[0;]
    |INDEX ERROR
    |      A[0;]
    |       ∧
    :⍴A[⍳0;1]
    |0

    :5[]
    |RANK ERROR
    |      5[]
    |       ∧

    :(⍳3)[]
    |1 2 3

    :(⍳3)[¯9223372036854775808]
    |INDEX ERROR
    |      (⍳3)[¯9223372036854775808]
    |          ∧

    :B←2 2⍴⍳4
    :B[(8⍴1)⍴1;(8⍴1)⍴1]
    |LIMIT ERROR
    |      B[(8⍴1)⍴1;(8⍴1)⍴1]
    |       ∧
    :B[(8⍴1)⍴9;(8⍴1)⍴1]
    |INDEX ERROR
    |      B[(8⍴1)⍴9;(8⍴1)⍴1]
    |       ∧

    :''[⍳0]
    |

    :A←⍳3
    :A[2 3][1]
    |2
    :A[]←7
    :A
    |7 7 7

    :A←2 3⍴⍳6
    :A[;2]
    |2 5
    :A[2;]
    |4 5 6
    :A[;]←⍉3 2⍴⍳6
    :A
    |1 3 5
    |2 4 6

    :)ORIGIN 0
    |WAS 1
    :A←⍳3
    :A[0]←9
    :A[2 1 0]
    |2 1 9
    :A[3]
    |INDEX ERROR
    |      A[3]
    |       ∧
    ";

/// Printed arrays.
pub(super) const PRINTED: &str = r"
    :2 1 2⍴1 2 100 3
    |  1 2
    |
    |100 3

    :2 2 1 1⍴⍳4
    |1
    |
    |2
    |
    |
    |3
    |
    |4

    :)WIDTH 30
    |WAS 120
    :30⍴'AB'
    |ABABABABABABABABABABABABABABAB
    :56⍴'AB'
    |ABABABABABABABABABABABABABABAB
    |      ABABABABABABABABABABABAB
    |      AB
    :31⍴'A '
    |A A A A A A A A A A A A A A A ⏎
    |      A
    :2 8⍴1 22 333 4444
    |1 22 333 4444 1 22 333 4444
    |1 22 333 4444 1 22 333 4444
    :2 4⍴10000000 2 300000000 4 5 60000000 7 80000000
    |10000000        2 300000000
    |             4
    |       5 60000000         7
    |      80000000
    :2 9⍴1 22 333 4444 5
    |1 22 333 4444    5 1 22 333
    |      4444
    |5  1  22  333 4444 5  1  22
    |       333

    :0 0⍴5

    :2 0⍴'A'
    ";

/// Shapes at the limits and past them.
pub(super) const LIMITS: &str = "
    :\u{feff}
    |CHARACTER ERROR
    |      ⏎
    |      ∧

    :1073741825⍴0
    |LIMIT ERROR
    |      1073741825⍴0
    |                ∧

    :1073741825 0⍴0
    |LIMIT ERROR
    |      1073741825 0⍴0
    |                  ∧

    :32768 32769⍴0
    |LIMIT ERROR
    |      32768 32769⍴0
    |                 ∧

    :0 1073741824⍴0
    :⍴0 1073741824⍴0
    |0 1073741824
    ";

/// Shapes of more than 8 axes, and of more than there may be.
pub(super) const MANY_AXES: &str = r"
    :1 1 1 1 1 1 1 1 1⍴7
    |7
    :⍴1 1 1 1 1 1 1 1 1⍴7
    |1 1 1 1 1 1 1 1 1

    :1 1 1 1 1 1 1 1 1 1 1 1 1 1 1⍴7
    |7

    :1 1 1 1 1 1 1 1 1 1 1 1 1 1 1 1⍴7
    |LIMIT ERROR
    |      1 1 1 1 1 1 1 1 1 1 1 1 1 1 1 1⍴7
    |                                     ∧

    :2 1 1 1 1 1 1 1 1⍴8 9
    |8
    |
    |
    |
    |
    |
    |
    |
    |9

    :A←1 1 1 1 1 1 1 1⍴3
    :A∘.+A
    |LIMIT ERROR
    |      A∘.+A
    |        ∧

    :(16⍴'A')↑5
    |LIMIT ERROR
    |      (16⍴'A')↑5
    |              ∧

    :(15⍴'A')↑5
    |DOMAIN ERROR
    |      (15⍴'A')↑5
    |              ∧

    :(16⍴'A')↑1 2
    |LENGTH ERROR
    |      (16⍴'A')↑1 2
    |              ∧

    :B←2 2⍴⍳4
    :B[(8⍴1)⍴1;(8⍴1)⍴1]
    |LIMIT ERROR
    |      B[(8⍴1)⍴1;(8⍴1)⍴1]
    |       ∧

    :B←2 2⍴⍳4
    :B[(8⍴1)⍴9;(8⍴1)⍴1]
    |INDEX ERROR
    |      B[(8⍴1)⍴9;(8⍴1)⍴1]
    |       ∧
    ";
